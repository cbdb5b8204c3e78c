//! Labels, trees and places: what every other crate speaks of.
#![tactic(auto)]

mod bare_table;
mod comparing;
mod keys;
mod label;
mod label_order;
mod label_piece;
mod label_read;
mod label_reader;
mod label_scan;
mod label_text;
mod numeral;
mod place;
mod spelling;
mod tree;
mod var;

pub use comparing::{Operand, Test, TestOp, label_cmp, label_order_is_total};
pub use keys::{item_collects, key_stands, keys_in_force};
pub use label::{Label, same_label};
pub use label_piece::{LabelPiece, next_piece};
pub use label_read::LabelRead;
pub use label_reader::{begins_label, read_label};
pub use label_scan::{PlainLabel, plain_label};
pub use place::Place;
pub use spelling::{push_label, push_quoted, write_label};
pub use tree::Tree;
pub use var::{Key, Var};
