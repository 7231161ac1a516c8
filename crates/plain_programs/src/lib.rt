//! Plain programs whose contracts are the definitions of `plain_orders`: the order check says whether an entry may follow,
//! `touches` whether an update changes something in a span, and others are parts of the stores, which are the fold of the entries
//! that they took. The order check keeps what its entries left in an index, so that a call looks up and scans nothing;
//! contracts see the list alone, and no clause speaks of the cost.
#![tactic(auto)]

mod child_keys;
mod live_session;
mod op_check;
mod order_check;
mod order_index;
#[cfg(test)]
mod tests;
mod touched;
mod transaction_name;
mod whole_number;

pub use child_keys::{data_code, end_of_child, sub_behind};
pub use op_check::op_may;
pub use order_check::OrderCheck;
pub use touched::{node_span, op_spans, touches};
pub use whole_number::{decimal_value, sum_of, whole_of};
