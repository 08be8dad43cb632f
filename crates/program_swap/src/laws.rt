//! Laws over the values of a board, each the contract of a function of such a value.

ghost use Rattle.program_swap.specs.Histories.{RisesByOne};
ghost use Rattle.program_swap.specs.Order.{KeepsOrder};

use crate::{Installer, Lane, LaneEnd, Token};

/// The numbers of a lane's view rise by one. Each answer that it keeps names an install of its view, and these numbers
/// never fall.
pub fn lanes_keep_order(lane: &Lane)
    ensures rising { RisesByOne lane.now.view }
    ensures order { KeepsOrder lane.now.view lane.now.answers }
{
    lane.keeps_order();
}

/// So it is with what a closed lane leaves.
pub fn ends_keep_order(end: &LaneEnd)
    ensures rising { RisesByOne end.now.view }
    ensures order { KeepsOrder end.now.view end.now.answers }
{
    end.keeps_order();
}

/// The numbers of the installs that a token tells rise by one.
pub fn tokens_rise(token: &Token)
    ensures { RisesByOne token.now.installs }
{
    token.rises();
}

/// The numbers of the installs that were published rise by one.
pub fn installers_rise(installer: &Installer)
    ensures { RisesByOne installer.now.published }
{
    installer.rises();
}
