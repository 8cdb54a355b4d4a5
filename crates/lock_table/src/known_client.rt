use lock_command::{ClientNumber, Reply, RequestNumber};

/// A client's last request, and the reply to it.
#[derive(Clone, Copy, Debug)]
pub struct KnownClient {
    pub client: ClientNumber,
    pub request: RequestNumber,
    pub reply: Reply,
}
