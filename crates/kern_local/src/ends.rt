ghost use Rattle.std.specs.Prelude.{◌≡◌};
ghost use Rattle.kern_local.specs.Rings.{all_open, with_end_shut};

use socket_model::How;

/// Which ends of a channel are shut.
#[derive(Clone, Copy, Debug, PartialEq, Eq)]
pub(crate) struct Ends {
    pub(crate) reading_shut: bool,
    pub(crate) writing_shut: bool,
}

impl Ends {
    /// Neither is.
    pub(crate) fn open() -> Ends
        ensures { result ≡ all_open }
    {
        Ends {
            reading_shut: false,
            writing_shut: false,
        }
    }

    /// Shuts an end, or both.
    pub(crate) fn shut(&mut self, how: How)
        ensures { self.new ≡ with_end_shut self.old how }
    {
        match how {
            How::Reading => self.reading_shut = true,
            How::Writing => self.writing_shut = true,
            How::Both => {
                self.reading_shut = true;
                self.writing_shut = true;
            }
        }
    }
}
