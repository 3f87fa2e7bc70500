//! The cookies by which a child process, or a program's next image, takes a process over on
//! another connection.
#![tactic(auto)]

mod cookies;
mod laws;
mod unused;

pub use cookies::Cookies;
pub use laws::{
    cookies_are_used_once, first_cookies_can_be_cancelled, jars_stay_sound, numbers_rise,
};
pub use unused::{CookieFault, CookieKind, UNUSED_COOKIES, Unknown, Unused};

#[cfg(test)]
mod tests;
