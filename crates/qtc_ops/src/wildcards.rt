ghost use Rattle.std.specs.Prelude.{◌≡◌, ◌≢◌, ◌≤◌, ◌∷◌, IfSome, IfNone, length, slice_index};
ghost use Rattle.qtc_ops.specs.Wildcards.{fits as fits_byte, CannotFit, some_suffix, star, TakesOne, wildcard};

use memchr::memchr;

/// Whether a symbol of a pattern other than `*` stands for the byte.
fn fits(symbol: u8, byte: u8) -> bool
    ensures { result ≡ fits_byte symbol byte }
{
    symbol == b'?' || symbol == byte
}

/// What follows the `*` at the front of the symbols.
fn after_star(symbols: &[u8]) -> Option<&[u8]>
    ensures any_run { IfSome result (λ rest. symbols.now ≡ star ∷ rest.now) }
    ensures other { IfNone result (slice_index symbols.now 0 ≢ star) }
{
    match symbols {
        [b'*', rest @ ..] => Some(rest),
        _ => None,
    }
}

/// What follows the first symbol and the first byte, where the one stands for the other.
fn after_one<'a>(symbols: &'a [u8], bytes: &'a [u8]) -> Option<(&'a [u8], &'a [u8])>
    ensures fits { IfSome result (λ rest. TakesOne symbols.now bytes.now rest.0.now rest.1.now) }
    ensures other { IfNone result (CannotFit symbols.now bytes.now) }
{
    match (symbols, bytes) {
        ([symbol, symbols_left @ ..], [byte, bytes_left @ ..]) if fits(*symbol, *byte) => {
            Some((symbols_left, bytes_left))
        }
        _ => None,
    }
}

/// The bytes from the first place on where the symbols after a `*` may match, as their first one tells: where
/// that is a byte, it stands there, and no symbols match at the end.
fn seek<'a>(symbols: &[u8], bytes: &'a [u8]) -> &'a [u8]
    ensures same { some_suffix (wildcard symbols.now) bytes.now ≡ some_suffix (wildcard symbols.now) result.now }
    ensures shorter { length result.now ≤ length bytes.now }
{
    match symbols {
        [] => &[],
        [symbol, ..] if *symbol != b'*' && *symbol != b'?' => {
            let place = memchr(*symbol, bytes).unwrap_or(bytes.len());
            &bytes[place..]
        }
        _ => bytes,
    }
}

/// Whether `pattern` matches the whole item: `*` stands for any run of bytes, the empty one too, `?` for any
/// one byte, and every other byte for itself.
///
/// It goes over the item once, and back only to where the last `*` can take more bytes, as no earlier `*` has to
/// be tried again. So it mostly takes about as many steps as the item has bytes, fewer where a byte follows each
/// `*`, and at most as many as the product of one more than the item's length and one more than the pattern's.
pub fn matches_pattern(pattern: &[u8], item: &[u8]) -> bool
    ensures { result ≡ wildcard pattern.now item.now }
{
    let mut symbols = pattern;
    let mut bytes = item;
    // What is tried again a byte later: the symbols after the last `*`, and the bytes from which on they were
    // tried last.
    let mut after: &[u8] = &[];
    let mut from: &[u8] = &[];
    'steps: loop {
        if let Some(rest) = after_star(symbols) {
            from = seek(rest, bytes);
            after = rest;
            symbols = rest;
            bytes = from;
        } else if let Some((symbols_left, bytes_left)) = after_one(symbols, bytes) {
            symbols = symbols_left;
            bytes = bytes_left;
        } else if bytes.is_empty() {
            return symbols.is_empty();
        } else if from.is_empty() {
            return false;
        } else {
            from = seek(after, &from[1..]);
            symbols = after;
            bytes = from;
        }
    }
}
