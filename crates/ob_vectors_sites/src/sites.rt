//! Sites of documents.
use ob_io::{MemFiles, NamedFile};
use ob_load::{LoadFault, Loaded, load};
use ob_rows::named_part;
use ob_site::Site;
use ob_times::Moment;
use std::alloc::{AllocError, Global};

/// A document that opens a site, and the moment at which it opens it, in milliseconds since 1970.
#[derive(Clone, Copy)]
pub(crate) struct Opening<'a> {
    pub(crate) document: &'a str,
    pub(crate) boot: u64,
}

/// The opening of the site of a name, among the documents of a file.
pub(crate) fn opening_of<'a>(documents: &'a str, name: &str) -> Option<Opening<'a>> {
    let (boot, document) = named_part(documents, name)?;
    let boot = boot.parse::<u64>().ok()?;
    Some(Opening { document, boot })
}

/// One file with these bytes, whose name is `site`.
pub(crate) fn files_of(alloc: Global, bytes: &[u8]) -> Result<MemFiles, AllocError> {
    let name = String::from_str(alloc, "site")?;
    let bytes = bytes.to_vec(alloc)?;
    let mut files = Vec::new(alloc);
    files.push(NamedFile { name, bytes })?;
    Ok(MemFiles::new(files, Vec::new(alloc)))
}

/// The site that a document opens, or why it opens none.
pub(crate) fn load_site(alloc: Global, bytes: &[u8], boot: Moment) -> Result<Loaded, LoadFault> {
    let Ok(mut files) = files_of(alloc, bytes) else {
        return Err(LoadFault::Memory);
    };
    load(alloc, &mut files, "site", boot)
}

/// The site that a document opens, if it opens one.
pub(crate) fn site_of(alloc: Global, opening: Opening) -> Option<Site> {
    let boot = Moment::new(opening.boot)?;
    let Loaded { ns, site } = load_site(alloc, opening.document.as_bytes(), boot).ok()?;
    drop(ns);
    Some(site)
}

/// The site of a name, among the documents of a file.
pub(crate) fn open(alloc: Global, documents: &str, name: &str) -> Option<Site> {
    let opening = opening_of(documents, name)?;
    site_of(alloc, opening)
}
