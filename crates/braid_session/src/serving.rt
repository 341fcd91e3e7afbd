/// What a server serves beside plain GETs.
#[derive(Clone, Copy, Debug, PartialEq, Eq)]
pub struct Serving {
    /// Whether PUTs are served.
    pub puts: bool,
    /// Whether subscriptions are served.
    pub subscriptions: bool,
}
