// R9.10: what put, remove and list look at alike, the whole file and full agreement.
#![tactic(auto)]

ghost use Rattle.std.specs.Prelude.{◌≡◌, ◌≤◌, ◌<◌, get_or};
ghost use Rattle.image.specs.Images.{trie_from};
ghost use Rattle.file.specs.Sizes.{Below};
ghost use Rattle.checking.specs.Ready.{Passed};

use file::{Size, Survey};
use image::Image;
use model::{Cause, NO_DIGIT};

// What the checks found: the file's sizes and its slots, as a map and in range order.
#[derive(Clone, Copy)]
pub struct Checked {
    pub size: Size,
    pub survey: Survey,
}

// The checks of a file and the trie of an image, in the order 2, 3, 4.
pub fn checks_of(file: &[u8], image: &Image) -> Result<Checked, Cause>
    ensures { Passed result file.now (trie_from image.now) }
{
    let size = file::header_of(file).ok_or(Cause::BadFile)?;
    let survey = surveying::survey_of(file, size)?;
    if !agreeing::is_agreeing(file, size, &survey.order, survey.count, image) {
        return Err(Cause::StaleTrie(NO_DIGIT));
    }
    Ok(Checked { size, survey })
}

// The slot at a place in order.
pub fn slot_at_place(checked: &Checked, place: usize) -> usize
    requires { (Below checked.now.survey.order checked.now.size.slots) × (checked.now.survey.count ≤ 64) × (place < checked.now.survey.count) }
    ensures { (result ≡ get_or checked.now.survey.order place 0) × (result < checked.now.size.slots) }
{
    checked.survey.order[place] as usize
}
