ghost use Rattle.std.specs.Prelude.{◌≡◌, ◌↔◌, ◌+◌, true, Err, IfOk, OnOk, OnErr, option_map, slice_get};
ghost use Rattle.std.specs.FinMap as map;
ghost use Rattle.std.specs.Result.{result_ok};
ghost use Rattle.sp_fork.specs.Jar.{IsJar, Jar, after, cancellable, empty_jar, found, is_full};
ghost use Rattle.sp_fork.specs.Jar.{is_made_by, made_by, redeemable, with_next};
ghost use Rattle.sp_fork.specs.Jar.Operation.{Cancel, Redeem};
ghost use Rattle.sp_fork.specs.declared.unused.CookieFault.TheVariants.{Full};
ghost use Rattle.sp_fork.specs.declared.unused.Unused.{Unused};

use crate::unused::{CookieFault, CookieKind, UNUSED_COOKIES, Unknown, Unused};
use sp_base::{ConnNo, Cookie, Pid};
use std::alloc::Global;
use std::marker::Model;
use tables::Table;

/// The unused cookies of a server. The first one has number 1, each further one the next number.
#[derive(Drop)]
pub struct Cookies {
    unused: Table<Unused>,
    given: u64,
}

impl Model for Cookies {
    ghost use Rattle.sp_fork.specs.Code.{jar_code};
    ghost use Rattle.sp_fork.specs.Jar.{IsJar, Jar};

    ghost Value = { Jar };

    ghost coded = { jar_code };

    ghost view = { λ c. record { unused = c.unused; given = c.given } };

    ghost invariant = { λ c. IsJar (record { unused = c.unused; given = c.given }) };
}

impl Cookies {
    /// No cookie was given yet; takes no memory.
    pub fn fresh(alloc: Global) -> Cookies
        ensures { result ≡ empty_jar }
    {
        Cookies {
            unused: Table::new(alloc),
            given: 0,
        }
    }

    /// How many cookies are unused, 64 at the most; takes no memory.
    pub fn unused(&self) -> u32
        ensures { result ≡ map.len self.now.unused }
    {
        self.unused.len() as u32
    }

    /// Whether no cookie can be made: 64 are unused, or the number 2^64 - 1 was given. Takes no
    /// memory.
    pub fn full(&self) -> bool
        ensures { result ≡ is_full self.now }
    {
        self.unused.len() as u64 >= UNUSED_COOKIES || self.given == u64::MAX
    }

    /// Makes the cookie of the next number, with this salt.
    ///
    /// Full comes exactly where the cookies are full, NoMemory where memory is refused. Either
    /// leaves all as it was.
    #[tactic(auto, using(crate::proofs::Jars::one_more_unused))]
    pub fn make(
        &mut self,
        pid: Pid,
        maker: ConnNo,
        salt: u64,
        kind: CookieKind,
    ) -> Result<Cookie, CookieFault>
        ensures number { IfOk result (λ cookie. cookie.number ≡ self.old.given + 1) }
        ensures salt { IfOk result (λ cookie. cookie.salt ≡ salt) }
        ensures jar { OnOk result (self.new ≡ with_next self.old
            (record { pid = pid; maker = maker; salt = salt; kind = kind })) }
        ensures full { (result ≡ Err Full) ↔ (is_full self.old ≡ true) }
        ensures same { OnErr result (self.new ≡ self.old) }
    {
        if self.full() {
            return Err(CookieFault::Full);
        }
        let number = self.given + 1;
        let made = Unused {
            pid,
            maker,
            salt,
            kind,
        };
        self.unused.insert(number, made)?;
        self.given = number;
        Ok(Cookie { number, salt })
    }

    /// Takes the cookie that was made last out again, as if it had never been made. Takes no memory.
    ///
    /// Where that cookie isn't unused any more, nothing changes.
    pub fn unmake(&mut self)
        ensures { (jar : Jar) (x : Unused) → IsJar jar → self.old ≡ with_next jar x
            → self.new ≡ jar }
    {
        if self.unused.remove(self.given).is_some() {
            self.given -= 1;
        }
    }

    /// The unused cookie that has a cookie's number and salt, and is of a kind; None exactly where
    /// `redeem` answers Unknown. Takes no memory.
    pub fn redeemable(&self, cookie: Cookie, kind: CookieKind) -> Option<Unused>
        ensures { result ≡ redeemable self.now cookie kind }
    {
        match self.found(cookie) {
            Some(found) if found.kind == kind => Some(found),
            _ => None,
        }
    }

    /// The unused cookie that has a cookie's number and salt, and that a connection made; None
    /// exactly where `cancel` answers Unknown. Takes no memory.
    pub fn cancellable(&self, cookie: Cookie, maker: ConnNo) -> Option<Unused>
        ensures { result ≡ cancellable self.now cookie maker }
    {
        match self.found(cookie) {
            Some(found) if found.maker == maker => Some(found),
            _ => None,
        }
    }

    /// Uses a cookie: gives its process and the connection that made it, and takes it out.
    ///
    /// Unknown comes exactly where no unused cookie has this number, salt and kind, and leaves all
    /// as it was. Takes no memory.
    pub fn redeem(&mut self, cookie: Cookie, kind: CookieKind) -> Result<(Pid, ConnNo), Unknown>
        ensures answer { result_ok result ≡
            option_map (λ x. (x.pid, x.maker)) (redeemable self.old cookie kind) }
        ensures jar { self.new ≡ after self.old (Redeem cookie kind) }
    {
        match self.redeemable(cookie, kind) {
            Some(found) => {
                self.take_out(cookie.number);
                Ok((found.pid, found.maker))
            }
            None => Err(Unknown),
        }
    }

    /// Takes a cookie out for the connection that made it, and gives its process and its kind.
    ///
    /// Unknown comes exactly where the connection has made no unused cookie of this number and
    /// salt, and leaves all as it was. Takes no memory.
    pub fn cancel(&mut self, cookie: Cookie, maker: ConnNo) -> Result<(Pid, CookieKind), Unknown>
        ensures answer { result_ok result ≡
            option_map (λ x. (x.pid, x.kind)) (cancellable self.old cookie maker) }
        ensures jar { self.new ≡ after self.old (Cancel cookie maker) }
    {
        match self.cancellable(cookie, maker) {
            Some(found) => {
                self.take_out(cookie.number);
                Ok((found.pid, found.kind))
            }
            None => Err(Unknown),
        }
    }

    /// The unused cookie of lowest number that a connection made; None exactly where it has none.
    /// Takes no memory.
    pub fn first_of(&self, maker: ConnNo) -> Option<Cookie>
        ensures { result ≡ slice_get (made_by self.now maker) 0 }
    {
        let number = self
            .unused
            .keys()
            .find(|number| self.is_made_by(**number, maker))?;
        let found = self.unused.get(*number)?;
        Some(Cookie {
            number: *number,
            salt: found.salt,
        })
    }

    /// Whether a connection made the unused cookie of a number.
    fn is_made_by(&self, number: u64, maker: ConnNo) -> bool
        ensures { result ≡ is_made_by maker (map.get self.now.unused number) }
    {
        match self.unused.get(number) {
            Some(found) => found.maker == maker,
            None => false,
        }
    }

    /// The unused cookie of a number and a salt.
    fn found(&self, cookie: Cookie) -> Option<Unused>
        ensures { result ≡ found self.now cookie }
    {
        match self.unused.get(cookie.number) {
            Some(found) if found.salt == cookie.salt => Some(*found),
            _ => None,
        }
    }

    /// Takes the unused cookie of a number out, where there is one.
    fn take_out(&mut self, number: u64)
        ensures { self.new ≡ record self.old { unused = map.remove self.old.unused number } }
    {
        self.unused.remove(number);
    }
}
