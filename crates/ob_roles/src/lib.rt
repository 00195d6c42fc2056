//! What tells the roles of a site's objects: the library with the contracts of the site, and what each word
//! stands for, as far as roles ask.
#![tactic(auto)]

mod ancestors;
mod few;
mod given;
mod kept;
mod kinds;
mod learned;
mod library;
mod naming;
mod part;
mod parts;
mod paths;
mod put_paths;
mod roles;
mod row;
mod summed;
mod taking;
mod told;
mod walk;
mod worded;

pub use ancestors::Ancestors;
pub use kept::kept_root;
pub use kinds::{Known, kinds_of, words_are};
pub use library::library_of;
pub use naming::{Names, find_over, names_in};
pub use part::Part;
pub use parts::all_parts;
pub use paths::taken_twice;
pub use put_paths::all_paths;
pub use taking::{Table, implied_by, own_words};
pub use told::{drops, role_at};
pub use walk::all_roles;
pub use worded::table_of;
