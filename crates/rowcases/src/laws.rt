//! The laws of what the rows are about, each called once.

use apicore::{accepted_are_admitted, runs_are_steps, view_decides, writes_follow};
use decoded::{
    events_are_last, histories_show, key_has_last_write, objects_ascend, revision_counts,
};
use expressions::{expressions_fit_the_text, one_stored_list};
use httpmsg::one_stream;
use jsondoc::text_escapes;
use objects::{
    change_counts, change_is_one_more, found_over, found_where_covered, listed_over,
    listed_where_covered, same_is_nothing,
};
use plancode::one_list;
use records::payload_has_one_group;
use recovery::payloads_have_one_list;
use requests::{parts_are_spelled, stored_is_read};
use snapshots::{kept_are_of_a_view, views_hold_objects};
use verdict::bindings_ascend;

/// The laws of documents, messages and requests.
pub fn laws_of_requests() {
    text_escapes();
    one_stream();
    stored_is_read();
    parts_are_spelled();
}

/// The laws of records and of the plans in them, of changes over entries, and of objects in pages.
pub fn laws_of_records() {
    payload_has_one_group();
    payloads_have_one_list();
    one_list();
    one_stored_list();
    expressions_fit_the_text();
    found_over();
    change_is_one_more();
    listed_over();
    same_is_nothing();
    change_counts();
    found_where_covered();
    listed_where_covered();
    views_hold_objects();
    kept_are_of_a_view();
}

/// The laws of histories, of what they show, of the requests that they answer, and of the policies that decide these.
pub fn laws_of_histories() {
    revision_counts();
    key_has_last_write();
    events_are_last();
    objects_ascend();
    histories_show();
    writes_follow();
    accepted_are_admitted();
    runs_are_steps();
    view_decides();
    bindings_ascend();
}
