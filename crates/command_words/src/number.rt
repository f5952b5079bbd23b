//! The numbers of options.
ghost use Rattle.std.specs.Prelude.{◌≡◌, IfSome, ◌&&◌, ◌||◌, ◌==◌, not, length, slice_index, nat_le, if◌then◌else◌, Some, None};
ghost use Rattle.command_words.specs.Numbers.{number_within, number_in, number_or, text_of};
ghost use Rattle.command_words.specs.Seen.{IsWithin};

/// The numbers that an option takes, and the one that stands where it isn't given.
#[derive(Clone, Copy)]
pub(crate) struct Range {
    pub(crate) least: u64,
    pub(crate) most: u64,
    pub(crate) otherwise: u64,
}

// The number of an option that may be given.
pub(crate) fn number_or(text: Option<&str>, range: Range) -> Option<u64>
    requires { IsWithin range.least range.most range.otherwise }
    ensures number { result ≡ number_or range.otherwise range.least range.most (text_of text.entry) }
    ensures within { IfSome result (IsWithin range.least range.most) }
{
    match text {
        Some(text) => number_within(text, range.least, range.most),
        None => Some(range.otherwise),
    }
}

// The number of a word that has to be there, from 0 to the most.
pub(crate) fn number_in(text: Option<&str>, most: u64) -> Option<u64>
    ensures number { result ≡ number_in most (text_of text.entry) }
    ensures within { IfSome result (IsWithin 0 most) }
{
    match text {
        Some(text) => number_within(text, 0, most),
        None => None,
    }
}

// The number that the text is, where it lies in the range.
fn number_within(text: &str, least: u64, most: u64) -> Option<u64>
    ensures number { result ≡ number_within least most text.now }
    ensures within { IfSome result (IsWithin least most) }
{
    if begins_well(text) {
        match text.parse::<u64>() {
            Ok(number) => in_range(number, least, most),
            Err(_) => None,
        }
    } else {
        None
    }
}

fn in_range(number: u64, least: u64, most: u64) -> Option<u64>
    ensures within { IfSome result (IsWithin least most) }
    ensures number { result ≡ (if nat_le least number && nat_le number most then Some number else None) }
{
    if least <= number && number <= most {
        Some(number)
    } else {
        None
    }
}

// No plus stands first, which `parse` takes, and a zero only where it stands alone.
fn begins_well(text: &str) -> bool
    ensures { result ≡ (not (slice_index text.now 0 == 43) && (not (slice_index text.now 0 == 48) || length text.now == 1)) }
{
    match text.as_bytes().first() {
        Some(b'+') => false,
        Some(b'0') => text.len() == 1,
        _ => true,
    }
}
