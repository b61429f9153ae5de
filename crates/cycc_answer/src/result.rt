// What `answer` gives.

ghost use Rattle.std.specs.Prelude.{◌≡◌, None};

/// The exit status; and where a `compile` succeeded, the bytes for OUT, and the map if one is asked for.
#[derive(Drop)]
pub struct Answer {
    pub status: u8,
    pub image: Option<Vec<u8>>,
    pub map: Option<String>,
}

impl Answer {
    /// An answer without an image.
    pub(crate) fn plain(status: u8) -> Answer
        ensures status { result.status ≡ status }
        ensures none { result.image ≡ None }
    {
        Answer {
            status,
            image: None,
            map: None,
        }
    }
}
