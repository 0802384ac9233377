//! The outputs of a group in the form that is asked for, and how many requests and questions were refused; and the picture of
//! a script's last answer.
#![tactic(auto)]

mod drawn;
mod form;
mod play;
mod shown;
mod tally;
mod texts;

pub use drawn::{Canvas, Drawing, draw_answer, draw_script};
pub use form::{Form, Look};
pub use play::{asked_by, asked_in, play_shown};
pub use shown::Shown;
pub use tally::Tally;
pub use texts::{outcome_in, output_in};
