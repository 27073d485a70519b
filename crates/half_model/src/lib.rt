//! One side of a pair of Wayland proxies as plain data.
#![tactic(auto)]

mod causes;
mod conversions;
mod deeds;
mod items;
mod laws;
mod lists;
mod notes;
mod roles;
mod rows;
mod sides;

pub use causes::{HalfFault, Limit, PeerCause, TakeFault};
pub use deeds::Deed;
pub use items::{FileReceipt, PeerIn, PeerOut};
pub use laws::{
    content_is_fine, fills_are_copies, given_is_sent, groups_fit, items_are_meant,
    jobs_make_the_group, made_is_good, opens_in_order, order_is_tracked, peer_has_meaning,
    pipe_turn_is_lawful, shown_in_order, sizes_are_bounded, turn_is_lawful, unshown_is_empty,
    wrong_marks,
};
pub use lists::{CopyList, FrameList, WordList};
pub use notes::{CopyRecord, Noted};
pub use roles::{Role, SentFile};
pub use rows::{
    copies_out, damage_edges, frame_causes, gone_buffers, grown_file, keymap_row, message_causes,
    pipe_ends, pipe_row, returning_buffer, rotated_damage, said_sizes, scaled_damage,
    shut_pipe_row, twelve_frames, waiting_items,
};
pub use sides::{is_own, other_side};
