// The C interface: the eight calls over a trie image, their answers as numbers. It decides nothing.
//
// 1 to 99 is a refusal with its number (docs/RULES.md, section 10); 100 and up says what was done; 255 is an image that
// is not 1,540 bytes long.
#![tactic(auto)]

ghost use Rattle.std.specs.Prelude.{◌≡◌};
ghost use Rattle.std.proofs.lemmas.List.Edits.{sets};
ghost use Rattle.model.specs.Answers.{number};
ghost use Rattle.model.specs.Sayings.{carried};
ghost use Rattle.capi.specs.Doors.{pal_check_of, pal_create_of, pal_list_of, pal_look_up_of, pal_put_of, pal_rebuild_of, pal_recover_of, pal_remove_of};

use file::Fault;
use image::BYTES;
use model::{Cause, Put, Recovery, Removal};

// What refuses a trie image of another length, before everything else.
const MALFORMED: u64 = 255;

// A refusal's number. Where the trie is stale, word 0 is the digit number that the cause carries.
fn refused(cause: Cause, out: &mut [u64; 4]) -> u64
    ensures { (result ≡ number cause) × (out.new ≡ sets out.old 0 (carried cause)) }
{
    if let Cause::StaleTrie(digit) = cause {
        out[0] = digit;
    }
    u64::from(cause)
}

pub fn pal_create(file: &mut [u8], version: u64, b: u64, slots: u64, trie: &mut [u8]) -> u64
    ensures { pal_create_of file.old version b slots trie.old ≡ (result, file.new, trie.new) }
{
    let Some(image) = trie.as_mut_array::<BYTES>() else {
        return MALFORMED;
    };
    match whole::create(file, image, version, b, slots) {
        Ok(()) => 150,
        Err(cause) => u64::from(cause),
    }
}

pub fn pal_check(file: &[u8]) -> u64
    ensures { result ≡ pal_check_of file.now }
{
    match whole::check(file) {
        Ok(()) => 140,
        Err(Fault::Cut(_)) => 141,
        Err(Fault::Bad) => 142,
    }
}

pub fn pal_recover(file: &mut [u8], limit: u64, out: &mut [u64; 4]) -> u64
    ensures { pal_recover_of file.old limit out.old ≡ (result, file.new, out.new) }
{
    match whole::recover(file, limit) {
        Ok(Recovery::Freed(slot)) => {
            out[0] = slot as u64;
            130
        }
        Ok(Recovery::Nothing) => 131,
        Ok(Recovery::Stopped(stores)) => {
            out[0] = stores;
            112
        }
        Err(cause) => refused(cause, out),
    }
}

pub fn pal_rebuild(file: &[u8], trie: &mut [u8]) -> u64
    ensures { pal_rebuild_of file.now trie.old ≡ (result, trie.new) }
{
    let Some(image) = trie.as_mut_array::<BYTES>() else {
        return MALFORMED;
    };
    match whole::rebuild(file, image) {
        Ok(()) => 151,
        Err(cause) => u64::from(cause),
    }
}

pub fn pal_lookup(file: &[u8], trie: &[u8], name: &[u8], out: &mut [u64; 4]) -> u64
    ensures { pal_look_up_of file.now trie.now name.now out.old ≡ (result, out.new) }
{
    let Some(image) = trie.as_array::<BYTES>() else {
        return MALFORMED;
    };
    let filled = digits::filled(name);
    match reading::look_up_from(file, image::place_in(image, &filled), name, &filled) {
        Ok(Some(held)) => {
            out[0] = held.value;
            out[1] = held.run;
            100
        }
        Ok(None) => 101,
        Err(cause) => refused(cause, out),
    }
}

// Files of version 3 keep `run`; those of versions 1 and 2 do not.
pub fn pal_put(
    file: &mut [u8],
    trie: &mut [u8],
    name: &[u8],
    value: u64,
    run: u64,
    limit: u64,
    out: &mut [u64; 4],
) -> u64
    ensures { pal_put_of file.old trie.old name.now value run limit out.old
        ≡ (result, file.new, trie.new, out.new) }
{
    let Some(image) = trie.as_mut_array::<BYTES>() else {
        return MALFORMED;
    };
    match putting::put(file, image, name, value, run, limit) {
        Ok(Put::Added) => 110,
        Ok(Put::Replaced(old)) => {
            out[0] = old.value;
            out[1] = old.run;
            111
        }
        Ok(Put::Stopped(stores)) => {
            out[0] = stores;
            112
        }
        Err(cause) => refused(cause, out),
    }
}

pub fn pal_remove(
    file: &mut [u8],
    trie: &mut [u8],
    name: &[u8],
    limit: u64,
    out: &mut [u64; 4],
) -> u64
    ensures { pal_remove_of file.old trie.old name.now limit out.old
        ≡ (result, file.new, trie.new, out.new) }
{
    let Some(image) = trie.as_mut_array::<BYTES>() else {
        return MALFORMED;
    };
    match removing::remove(file, image, name, limit) {
        Ok(Removal::Removed(_)) => 120,
        Ok(Removal::Absent) => 101,
        Ok(Removal::Stopped(stores)) => {
            out[0] = stores;
            112
        }
        Err(cause) => refused(cause, out),
    }
}

pub fn pal_list(
    file: &[u8],
    trie: &[u8],
    first: &[u8],
    second: &[u8],
    output: &mut [u8],
    out: &mut [u64; 4],
) -> u64
    ensures { pal_list_of file.now trie.now first.now second.now output.old out.old
        ≡ (result, output.new, out.new) }
{
    let Some(image) = trie.as_array::<BYTES>() else {
        return MALFORMED;
    };
    match reading::list(file, image, first, second, output) {
        Ok(entries) => {
            out[0] = entries;
            152
        }
        Err(cause) => refused(cause, out),
    }
}
