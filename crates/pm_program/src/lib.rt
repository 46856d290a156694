//! What programs share: why they end early, what they say of it, their statuses, and how the first
//! bytes of an input are read.
#![tactic(auto)]

mod fail;
mod input;
mod making;
mod request;
mod stop;

pub use fail::RunFail;
pub use input::{InputFail, of_input, read_up_to};
pub use making::{MOST, MakeFail, of_make};
pub use request::{Request, tell_text, tell_version, text_asked};
pub use stop::{Stop, refuse_words, say, tell_stop};
