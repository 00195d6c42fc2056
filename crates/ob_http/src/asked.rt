//! A request that holds its own bytes.
use crate::media::Media;
use ob_values::{Bytes, Text};

/// A whole request.
pub struct Asked {
    pub method: Text,
    pub target: Bytes,
    /// Whether the client closes the connection behind it: HTTP/1.0, or the word `close` in a
    /// Connection field.
    pub close: bool,
    pub media: Media,
    pub body: Bytes,
}

impl Drop for Asked {
    // By one call for each part, so that to drop a request is one call to whoever may have to.
    fn drop(self) {
        let Asked {
            method,
            target,
            close: _,
            media: _,
            body,
        } = self;
        drop(method);
        drop(target);
        drop(body);
    }
}
