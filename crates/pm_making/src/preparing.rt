//! Any OBJ text made fit.
ghost use Rattle.std.specs.Prelude.{IfOk, IfErr};
ghost use Rattle.obj_prepare.specs.Placing.{IsSize};
ghost use Rattle.obj_fit.specs.Laws.{IsFitText};
ghost use Rattle.pm_making.specs.Fitting.{HasScale, IsPreparedOf, IsUnfit};

use crate::fail::PrepareFail;
use crate::gathered::Gathered;
use crate::made::Made;
use obj_fit::{InputFail, make, outcomes_are_sound, write_made};
use pm_io::SureSource;
use std::alloc::Global;

/// Makes of any OBJ text the bytes that the program `prepare` writes, and beside them the lines
/// that it says: a text that `build` takes. Without a size, points that fit the grid stand as they
/// are; with one, from 1 to 32,767, the longest axis of the box goes from -size to size. It is
/// refused exactly where `prepare` refuses the text, or where memory is wanting. The text is copied
/// once; all else costs what it does in `prepare`.
pub fn prepare(alloc: Global, text: &[u8], size: Option<u32>) -> Result<Made, PrepareFail>
    requires size { IsSize size }
    ensures made { IfOk result (IsPreparedOf size text.now) }
    ensures fit { IfOk result (λ all. IsFitText all.bytes) }
    ensures scale { IfOk result HasScale }
    ensures refused { IfErr result (IsUnfit size text.now) }
{
    let Ok(mut source) = SureSource::new(alloc, text, 4096) else {
        return Err(PrepareFail::OutOfMemory);
    };
    let it = match make(alloc, size, &mut source) {
        Ok(it) => it,
        Err(InputFail::Faulty(fault)) => return Err(PrepareFail::Faulty(fault)),
        // A source in memory never fails.
        Err(InputFail::Read | InputFail::OutOfMemory) => return Err(PrepareFail::OutOfMemory),
    };
    let mut gathered = Gathered::new(alloc);
    if write_made(&it, &mut gathered).is_err() {
        return Err(PrepareFail::OutOfMemory);
    }
    outcomes_are_sound();
    Ok(Made::scaled(gathered.into_bytes(), it.notes, it.scale))
}
