//! Hosts, as users write them.

/// The host without the brackets in which an IPv6 address stands in a URL.
pub fn without_brackets(host: &str) -> &str {
    let Some(rest) = host.strip_prefix('[') else {
        return host;
    };
    rest.strip_suffix(']').unwrap_or(host)
}
