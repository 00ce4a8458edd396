use documents::Document;

/// A stored document, what stands beside it, and the revision of its last write.
#[derive(Drop)]
pub struct Stored<P> {
    pub document: Document,
    pub beside: P,
    pub revision: u64,
}
