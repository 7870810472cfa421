//! Who looks at the page, and what it says of its server.

ghost use Rattle.std.specs.Prelude.{◌≡◌, ◌++◌, OnOk};
ghost use Rattle.gx_status.specs.Viewers.{journal_word, page_text, server_members, viewer_members};

use crate::server::ServerFigures;
use crate::state::append_view;
use gx_board::BoardView;
use gx_json::{append_bool_member, append_name_member, append_number_member};
use gx_text::append;
use gx_units::{OutOfMemory, UserName};

/// What a page is told of its user and of its server.
#[derive(Clone, Copy)]
pub struct Viewer {
    /// Who looks at it.
    pub user: UserName,
    /// Whether he has the power to kill.
    pub may_kill: bool,
    /// What his page gives back with what it asks for.
    pub token: [u8; 32],
    /// What the server says of itself.
    pub server: ServerFigures,
}

/// Whether there is a journal, in a word.
fn journal_word(is_journaled: bool) -> &'static [u8]
    ensures { result.now ≡ journal_word is_journaled }
{
    if is_journaled { b"kept" } else { b"none" }
}

#[tactic(auto, unfolding(crate::specs::Viewers::viewer_members))]
fn append_viewer(text: &mut Vec<u8>, viewer: &Viewer) -> Result<(), OutOfMemory>
    ensures { OnOk result (text.new.items ≡ text.old.items ++ viewer_members viewer.now) }
{
    append_name_member(text, b"user", &viewer.user.bytes)?;
    append_bool_member(text, b"may_kill", viewer.may_kill)?;
    append_name_member(text, b"token", &viewer.token)
}

#[tactic(auto, unfolding(crate::specs::Viewers::server_members))]
fn append_server(text: &mut Vec<u8>, server: &ServerFigures) -> Result<(), OutOfMemory>
    ensures { OnOk result (text.new.items ≡ text.old.items ++ server_members server.now) }
{
    append_name_member(text, b"journal", journal_word(server.is_journaled))?;
    append_number_member(text, b"connections", u64::from(server.connections))
}

/// Puts a view at the end of the text as a JSON object, with what the page is told of its user and of its server behind it.
///
/// # Errors
///
/// `OutOfMemory` where memory was refused; then a part of it may stand at the end of the text.
pub fn append_page(text: &mut Vec<u8>, view: &BoardView, viewer: &Viewer) -> Result<(), OutOfMemory>
    ensures { OnOk result (text.new.items ≡ text.old.items ++ page_text view.now viewer.now) }
{
    append_view(text, view)?;
    append_viewer(text, viewer)?;
    append_server(text, &viewer.server)?;
    append(text, b"}")
}
