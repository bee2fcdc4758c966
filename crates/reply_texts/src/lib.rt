//! The texts of a desk's replies, for scripts and for running sites, without the line feed at their end.
#![tactic(auto)]

mod texts;

pub use texts::{
    REPLY_ROOM, desk_error_name, put_bad_command, put_bad_deadline, put_error, put_number,
    put_refusal, put_spending, put_status, refusal_of,
};
