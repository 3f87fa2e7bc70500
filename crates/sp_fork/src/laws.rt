//! The laws of cookies: functions that do nothing, and whose contracts are the laws.
ghost use Rattle.std.specs.Prelude.{◌≡◌, ◌∷◌, IsSome, List};
ghost use Rattle.std.specs.List.Sorted.{IsStrictlySortedBy};
ghost use Rattle.std.specs.Ordering.{nat_cmp};
ghost use Rattle.sp_base.specs.declared.names.ConnNo.{ConnNo};
ghost use Rattle.sp_base.specs.declared.names.Cookie.{Cookie};
ghost use Rattle.sp_fork.specs.Jar.{IsJar, Jar, Operation, after, cancellable, empty_jar};
ghost use Rattle.sp_fork.specs.Jar.{made_by, redeemable};
ghost use Rattle.sp_fork.specs.Jar.Operation.{Cancel, Redeem};
ghost use Rattle.sp_fork.specs.Run.{IsSpent, carried, numbers_given};
ghost use Rattle.sp_fork.specs.declared.unused.CookieKind.{CookieKind};

/// Whatever is done to cookies, each unused one has a number that was given, and 64 are unused at
/// the most.
pub fn jars_stay_sound()
    ensures begins { IsJar empty_jar }
    ensures stays { (jar : Jar) (operations : List Operation)
        → IsJar jar → IsJar (carried jar operations) }
{}

/// A cookie is used once at the most: once it was redeemed or cancelled, no cookie of its number is
/// redeemed or cancelled, whatever is done between.
pub fn cookies_are_used_once()
    ensures redeemed { (jar : Jar) (cookie : Cookie) (kind : CookieKind)
        (between : List Operation) → IsJar jar → IsSome (redeemable jar cookie kind)
        → IsSpent (carried jar (Redeem cookie kind ∷ between)) cookie.number }
    ensures cancelled { (jar : Jar) (cookie : Cookie) (maker : ConnNo)
        (between : List Operation) → IsJar jar → IsSome (cancellable jar cookie maker)
        → IsSpent (carried jar (Cancel cookie maker ∷ between)) cookie.number }
{}

/// A connection can cancel its unused cookies in rising order of their numbers, until none is left.
pub fn first_cookies_can_be_cancelled()
    ensures there { (jar : Jar) (maker : ConnNo) (first : Cookie) (rest : List Cookie)
        → made_by jar maker ≡ first ∷ rest → IsSome (cancellable jar first maker) }
    ensures rest { (jar : Jar) (maker : ConnNo) (first : Cookie) (rest : List Cookie)
        → made_by jar maker ≡ first ∷ rest → made_by (after jar (Cancel first maker)) maker ≡ rest }
{}

/// The numbers of cookies rise: each is above every number that was given before, so none comes
/// again.
pub fn numbers_rise()
    ensures { (jar : Jar) (operations : List Operation)
        → IsStrictlySortedBy nat_cmp (jar.given ∷ numbers_given jar operations) }
{}
