//! With which words a catalog's line goes on, and where it goes on with none.
#![tactic(auto)]

mod form_word;
mod going_on;
mod law;
mod line_form;
mod misfit;
mod next;
mod tried;

pub use form_word::FormWord;
pub use law::fitting_fronts_go_on;
pub use misfit::misfit_place;
pub use next::next_words;
