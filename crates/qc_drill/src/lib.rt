//! Lines in, lines out: the commands of the program over any site, source and sink.
//!
//! `run` carries out a command and answers its status. For the word `init` it makes the site from the catalogue that
//! the source has. For the word `drill` it opens the site's hub, reads order lines from the source to its end, and
//! writes the reply line of each. `answer_line` answers one line.
//!
//! What the lines of a byte string are, which order a line asks for, and what the machine replies are the definitions
//! of docs/RULES.md and docs/FORMATS.md; `specs/Drill.antt` puts them together. `specs/Headline.antt` says what a drill
//! promises, `specs/Crash.antt` what a crash in its midst leaves, `specs/Calls.antt` what its calls leave, and
//! `specs/Inits.antt` what the making of a site promises.
#![tactic(auto)]

mod answer;
mod command;
mod drill;
mod init;
mod laws;
mod opened;
mod piece;
mod stop;
mod turn;
mod worked;

pub use answer::answer_line;
pub use command::run;
pub use laws::lines_lose_no_fact;
pub use worked::{
    a_fact_without_its_tag_is_damage, a_group_that_is_cut_is_closed, a_send_is_listed,
    a_send_takes_its_room, outside_rows_are_listed, tables_are_listed, two_sends_are_listed,
};
