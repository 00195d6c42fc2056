//! A storm: a site of a hundred points, and what many clients ask of it, all of which a seed decides.
//!
//! `site_text` is the site's file, and `count_storm` asks any machine whose requests and replies are the site's; it counts what is in
//! the replies. `specs/Site.antt` says the site, `specs/Draws.antt` what is drawn, `specs/Requests.antt` what is asked,
//! `specs/Runs.antt` what is counted, and `specs/Lines.antt` what is printed.
#![tactic(auto)]

mod clients;
mod draws;
mod lines;
mod replies;
mod requests;
mod rows;
mod run;
mod site;
mod storm;
mod totals;

pub use rows::worked_rows;
pub use run::{BOOT, count_storm};
pub use site::site_text;
pub use storm::Storm;
pub use totals::Totals;
