ghost use Rattle.std.specs.Prelude.{◌≡◌, ◌<◌, ◌≤◌, IfOk, IfErr, IsSome};
ghost use Rattle.qtc_outside.specs.Loading.{Loads, NotLoaded, ReadsOn, ReadsNothing, ReadsRest, RestNotRead};
ghost use Rattle.qtc_outside.specs.declared.loading.LoadFault.TheVariants.{Memory};

use crate::Texts;
use qtc_base::{Bytes, NoMemory};
use std::alloc::{AllocError, Global};

/// Why a text was not loaded.
#[derive(Clone, Copy, Debug, PartialEq, Eq)]
pub enum LoadFault {
    /// The source failed.
    Read,
    /// The text has more bytes than the limit.
    TooLong,
    /// Want of memory.
    Memory,
}

impl From<NoMemory> for LoadFault {
    ghost from_gives = { λ _ fault. fault ≡ Memory };

    fn from(_fault: NoMemory) -> LoadFault {
        LoadFault::Memory
    }
}

impl From<AllocError> for LoadFault {
    ghost from_gives = { λ _ fault. fault ≡ Memory };

    fn from(_error: AllocError) -> LoadFault {
        LoadFault::Memory
    }
}

/// How many bytes one read asks for at the most.
const CHUNK: usize = 65_536;

/// Reads once, straight behind the text, and says how much it was; 0 at the end. Its memory is taken before
/// anything is asked of the source.
fn read_piece<T: Texts>(texts: &mut T, text: &mut Vec<u8>, room: usize) -> Result<usize, LoadFault>
    requires some { 0 < room }
    requires chunk { room ≤ CHUNK }
    requires chosen { IsSome (T.source texts.old).chosen }
    ensures ok { IfOk result (λ count. ReadsOn (T.source texts.old) text.old.items count text.new.items (T.source texts.new)) }
    ensures within { IfOk result (λ count. count ≤ room) }
    ensures err { IfErr result (λ fault. ReadsNothing (T.source texts.old) fault (T.source texts.new)) }
{
    let before = text.len();
    text.reserve(room)?;
    text.resize(before + room, 0)?;
    match texts.read(&mut text[before..]) {
        Ok(count) => {
            text.truncate(before + count);
            Ok(count)
        }
        Err(_) => Err(LoadFault::Read),
    }
}

/// Reads the chosen text to its end, or past the limit.
fn read_rest<T: Texts>(alloc: Global, texts: &mut T, limit: u64) -> Result<Bytes, LoadFault>
    requires { IsSome (T.source texts.old).chosen }
    ensures ok { IfOk result (λ text. ReadsRest limit (T.source texts.old) text (T.source texts.new)) }
    ensures err { IfErr result (λ fault. RestNotRead limit (T.source texts.old) fault (T.source texts.new)) }
{
    let mut text = Vec::new(alloc);
    while text.len() as u64 <= limit {
        let room = (limit - text.len() as u64).min(CHUNK as u64 - 1) as usize + 1;
        if read_piece(texts, &mut text, room)? == 0 {
            return Ok(Bytes::from_vec(text));
        }
    }
    Err(LoadFault::TooLong)
}

/// Loads the text under `name`, of at most `limit` bytes, by reads of 64 KiB. Read where the source failed;
/// TooLong exactly where more than `limit` bytes were given, after which no more is asked for.
pub fn read_text<T: Texts>(
    alloc: Global,
    texts: &mut T,
    name: &[u8],
    limit: u64,
) -> Result<Bytes, LoadFault>
    ensures ok { IfOk result (λ text. Loads limit (T.source texts.old) name.now text (T.source texts.new)) }
    ensures err { IfErr result (λ fault. NotLoaded limit (T.source texts.old) name.now fault (T.source texts.new)) }
{
    let name = Bytes::from_slice(alloc, name)?;
    match texts.choose(name) {
        Ok(()) => read_rest(alloc, texts, limit),
        Err(_) => Err(LoadFault::Read),
    }
}
