ghost use Rattle.std.specs.Option.{SomeIff};
ghost use Rattle.c_claims.specs.Asking.{MayAsk, asker_of};

use c_host::host_of;
use session::Asker;

/// What a session is to know before it takes a lock, as C hands it over.
#[repr(C)]
#[derive(Clone, Copy, Drop)]
pub struct AskerNumbers {
    /// The last request of the session, or 0.
    pub request: u64,
    pub host: u32,
    /// 1 where other processes have the host number, too.
    pub shares: u32,
    /// The longest pause between two looks, in milliseconds.
    pub interval: u32,
    pub unused: u32,
}

impl AskerNumbers {
    /// The session that this is.
    pub fn asker(&self) -> Option<Asker>
        ensures { SomeIff result (MayAsk self.now) (asker_of self.now) }
    {
        Some(Asker {
            host: host_of(self.host)?,
            shares: self.shares == 1,
            request: self.request,
            interval: u16::try_from(self.interval).ok()?,
        })
    }
}
