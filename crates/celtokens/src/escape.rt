//! Escapes in strings.

ghost use Rattle.std.specs.Prelude.{◌≡◌, ◌≤◌, ◌<◌, length, option_map, IfSome};
ghost use Rattle.celtokens.specs.Escape.{code_point, named, hex_len, escape};

// The code point that the first `count` digits name, and what follows them.
fn code_point(chars: &[char], radix: u32, count: usize) -> Option<(char, &[char])>
    requires at_least_two { 2 ≤ radix }
    requires at_most_sixteen { radix ≤ 16 }
    requires some { 0 < count }
    requires few { count ≤ 8 }
    ensures value { option_map (λ x. (x.0, x.1.now)) result ≡ code_point radix count chars.now }
    ensures shorter { IfSome result (λ x. length x.1.now < length chars.now) }
{
    let Some((digits, rest)) = chars.split_at_checked(count) else {
        return None;
    };
    let mut code: u32 = 0;
    for digit in digits {
        let Some(value) = digit.to_digit(radix) else {
            return None;
        };
        code = code * radix + value;
    }
    match char::from_u32(code) {
        Some(named) => Some((named, rest)),
        None => None,
    }
}

// What a sign or a letter names.
fn named(letter: char) -> Option<char>
    ensures { result ≡ named letter }
{
    match letter {
        '\\' | '?' | '"' | '\'' | '`' => Some(letter),
        'a' => Some('\x07'),
        'b' => Some('\x08'),
        'f' => Some('\x0c'),
        'n' => Some('\n'),
        'r' => Some('\r'),
        't' => Some('\t'),
        'v' => Some('\x0b'),
        _ => None,
    }
}

// How many hexadecimal digits follow a letter.
fn hex_len(letter: char) -> Option<usize>
    ensures { result ≡ hex_len letter }
{
    match letter {
        'x' | 'X' => Some(2),
        'u' => Some(4),
        'U' => Some(8),
        _ => None,
    }
}

/// The code point that an escape names, without its backslash, and what follows it.
pub(crate) fn escape(chars: &[char]) -> Option<(char, &[char])>
    ensures value { option_map (λ x. (x.0, x.1.now)) result ≡ escape chars.now }
    ensures shorter { IfSome result (λ x. length x.1.now < length chars.now) }
{
    let Some((letter, rest)) = chars.split_first() else {
        return None;
    };
    if let Some(named) = named(*letter) {
        Some((named, rest))
    } else if let Some(count) = hex_len(*letter) {
        code_point(rest, 16, count)
    } else if '0' <= *letter && *letter <= '3' {
        code_point(chars, 8, 3)
    } else {
        None
    }
}
