// The calls on a whole file: create, check, recover, rebuild. None asks anything of a file: each checks for itself, in the
// order of refusals R10.9.
#![tactic(auto)]

ghost use Rattle.std.specs.Prelude.{◌≡◌};
ghost use Rattle.model.specs.Calls.{create_of, recover_of};
ghost use Rattle.model.specs.Format.{check_file};
ghost use Rattle.whole.specs.Outcomes.{Creates, Rebuilds, found, left_by, recovered};
ghost use Rattle.whole.specs.Small.{Small};

use file::Fault;
use image::Image;
use model::{Cause, Layout, RecoverAnswer, Recovery, TrieAnswer};

// A number that is no size of a file stays none.
fn small(x: u64) -> usize
    ensures { Small result x }
{
    x.min(255) as usize
}

// Writes the whole buffer: a file with one empty bucket without limits, in slot 0. Refused or not, it gives the trie without cells.
pub fn create(file: &mut [u8], image: &mut Image, version: u64, b: u64, slots: u64) -> TrieAnswer
    ensures { Creates result file.new image.new (create_of file.old version b slots) }
{
    image::write_cleared(image, 0, 0);
    let layout = Layout {
        version: small(version),
        b: small(b),
    };
    let size = file::sizes(file.len(), layout, small(slots)).ok_or(Cause::WrongSize)?;
    file::create(file, size);
    Ok(())
}

// Whether a file is sound, or what it lacks.
pub fn check(file: &[u8]) -> Result<(), Fault>
    ensures { result ≡ found (check_file file.now) }
{
    let size = file::header_of(file).ok_or(Fault::Bad)?;
    surveying::survey_of(file, size)?;
    Ok(())
}

// R9.3: frees N in one store, and names it.
pub fn recover(file: &mut [u8], limit: u64) -> RecoverAnswer
    ensures { recovered result file.new ≡ recover_of file.old limit }
{
    if 2 < limit {
        return Err(Cause::WrongSize);
    }
    let size = file::header_of(file).ok_or(Cause::BadFile)?;
    match surveying::survey_of(file, size) {
        Ok(_) => Ok(Recovery::Nothing),
        Err(Fault::Bad) => Err(Cause::BadFile),
        Err(Fault::Cut(inner)) => {
            if file::commit(file, size, file::freeing(inner), limit) {
                return Ok(Recovery::Stopped(limit));
            }
            Ok(Recovery::Freed(inner))
        }
    }
}

// Writes the image of the trie of the bucket headers alone; refused, it leaves the image to its caller. The strings are made and used
// here: handed on in a `Result`, they would stand on the stack once more.
fn rebuild_from(file: &[u8], image: &mut Image) -> TrieAnswer
    ensures { Rebuilds result (left_by result image.new) file.now }
{
    let size = file::header_of(file).ok_or(Cause::BadFile)?;
    let survey = surveying::survey_of(file, size)?;
    let Some(strings) = strings::strings_of(file, size, &survey.order, survey.count) else {
        return Err(Cause::ManyStrings);
    };
    rebuilding::rebuild(image, &strings);
    Ok(())
}

// Writes the image of the trie of the bucket headers alone. Refused, it gives the trie without cells.
pub fn rebuild(file: &[u8], image: &mut Image) -> TrieAnswer
    ensures { Rebuilds result image.new file.now }
{
    let answer = rebuild_from(file, image);
    if answer.is_err() {
        image::write_cleared(image, 0, 0);
    }
    answer
}
