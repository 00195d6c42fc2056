//! From a site file to the site that it opens, or why it opens none.
#![tactic(auto)]

mod laws;
mod reading;
mod site;

pub use laws::opened_is_not_refused;
pub use ob_site::Site;
pub use ob_site_file::LoadFault;
pub use site::{Loaded, load};
