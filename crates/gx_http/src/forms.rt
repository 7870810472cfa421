//! The form that asks for a kill.

ghost use Rattle.std.specs.Prelude.{◌≡◌};
ghost use Rattle.gx_http.specs.Forms.{kill_form};

use form_urlencoded::raw_pairs;
use gx_units::{AccountName, padded};

/// What a page was given, and gives back with what it asks for: no page of another server knows it.
#[derive(Clone, Copy, PartialEq, Eq)]
pub struct PageToken {
    /// As the page sends it.
    pub bytes: [u8; 32],
}

/// What the form of a kill says.
#[derive(Clone, Copy, PartialEq, Eq)]
pub struct KillForm {
    /// The account that is to be killed.
    pub account: AccountName,
    /// What the page was given.
    pub token: PageToken,
}

/// The form in a request's body: the account and the token, and nothing else.
pub(crate) fn kill_form(body: &[u8]) -> Option<KillForm>
    ensures { result ≡ kill_form body.now }
{
    let mut pairs = raw_pairs(body);
    let (first, account) = pairs.next()?;
    let (second, token) = pairs.next()?;
    if pairs.next().is_some() || first != b"account".as_slice() || second != b"token".as_slice() {
        return None;
    }
    Some(KillForm {
        account: AccountName {
            bytes: padded(account)?,
        },
        token: PageToken {
            bytes: padded(token)?,
        },
    })
}
