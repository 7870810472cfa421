//! What the layouts of the commands say together.

ghost use Rattle.gx_ouch.specs.Layout.{IsWithoutGaps};
ghost use Rattle.gx_desk.specs.{Messages.{kill, lift, set_limit, restrict, unrestrict, grant, revoke, close_day}, Reading.KeepTheirType};

/// Each byte of a command is its type or in one of its fields.
pub fn commands_have_no_gaps()
    ensures kill { IsWithoutGaps kill }
    ensures lift { IsWithoutGaps lift }
    ensures set_limit { IsWithoutGaps set_limit }
    ensures restrict { IsWithoutGaps restrict }
    ensures unrestrict { IsWithoutGaps unrestrict }
    ensures grant { IsWithoutGaps grant }
    ensures revoke { IsWithoutGaps revoke }
    ensures close_day { IsWithoutGaps close_day }
{}

/// The type of a command that was read, as its answer tells it, is the first byte of what was read.
pub fn commands_keep_their_type()
    ensures { KeepTheirType }
{}
