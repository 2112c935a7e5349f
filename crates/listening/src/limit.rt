//! How many connections a server takes.

/// How many connections a server takes.
#[derive(Clone, Copy, Debug, PartialEq, Eq)]
pub enum Limit {
    /// So many, 1 to 64: the n-th is session n, and each counts, whatever it sends.
    Sessions(u8),
    /// So many clients, of which at most 64 are served at once, under the session numbers that come
    /// free; 0: as many as come, until the reader ends. What is no client does not count: one that
    /// begins as an HTTP request or a TLS handshake does, or sends nothing.
    Connections(u32),
}
