//! What a page is given, so that no page of another server can ask for anything in a user's name.

ghost use Rattle.std.specs.Prelude.{◌≡◌};
ghost use Rattle.gx_button.specs.Tokens.{differences, same_page_token, page_token};

use gx_http::PageToken;
use gx_units::UserName;
use hex::encode_to_slice;
use sha2::{Digest, Sha256};

/// What the pages of one run of a server make their tokens of: bytes that nobody else knows.
#[derive(Clone, Copy)]
pub struct Secret {
    /// Chosen at random as the server begins.
    pub bytes: [u8; 32],
}

impl Secret {
    /// The token of this user's page.
    pub fn token(&self, user: UserName) -> PageToken
        ensures { result ≡ page_token self.now.bytes user }
    {
        let mut hasher = Sha256::new();
        hasher.update(&self.bytes);
        hasher.update(&user.bytes);
        let digest = hasher.finalize();
        let mut bytes = [0; 32];
        match encode_to_slice(&digest[..16], &mut bytes) {
            Ok(()) => PageToken { bytes },
            Err(_) => unreachable!(),
        }
    }
}

/// What differs between the bytes, all of it in one byte: 0 where they are the same. Each byte is looked at, whatever the others
/// are.
fn differences(one: &[u8], other: &[u8]) -> u8
    ensures { result ≡ differences one.now other.now }
{
    one.iter()
        .zip(other)
        .fold(0, |seen, (left, right)| seen | (*left ^ *right))
}

/// Whether the tokens are the same. Its time does not tell how much of a token is right.
pub(crate) fn same_token(one: &PageToken, other: &PageToken) -> bool
    ensures { result ≡ same_page_token one.now other.now }
{
    differences(&one.bytes, &other.bytes) == 0
}
