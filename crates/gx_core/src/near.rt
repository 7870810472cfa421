//! Where the names of a step are looked for first. Nothing but time rests on these places: each table compares what stands
//! there with the name.

use crate::gate::Gate;
use gx_history::facts::Facts;
use gx_history::live_order::LiveOrder;
use gx_history::record::{Asked, Request};
use gx_index::Near;

impl Gate {
    /// Of who asks, and of the stock of an Enter.
    pub(crate) fn near_asker(&self, a: &Asked) -> Near {
        let asker = self.state.people.near(a.user);
        match &a.request {
            Request::Enter(m) => Near {
                stock: self.state.book.near(m.stock),
                ..asker
            },
            _ => asker,
        }
    }

    /// The same, with the stock of the order that a Replace or a Cancel names.
    pub(crate) fn near_named(&self, asker: Near, known: &Facts) -> Near {
        match &known.target_order {
            Some(order) => Near {
                stock: self.state.book.near(order.terms.stock),
                ..asker
            },
            None => asker,
        }
    }

    /// Of the stock of an order that waits. Its user and its account are looked up where it is executed or expires.
    pub(crate) fn near_waiting(&self, order: &LiveOrder) -> Near {
        Near {
            stock: self.state.book.near(order.terms.stock),
            ..Near::FIRST
        }
    }
}
