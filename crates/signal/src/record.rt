// The record of a code, on one line.
ghost use Rattle.std.specs.Prelude.{Some};
ghost use Rattle.signal.specs.Words.{record_text};

use crate::code::Code;
use crate::due::Due;
use crate::flag::Flag;
use std::fmt;

impl fmt::Display for Code {
    ghost output = { λ code. Some (record_text code) };

    fn fmt<W: fmt::Write>(&self, f: &mut fmt::Formatter<W>) -> fmt::Result {
        let Code {
            state,
            partner,
            own,
            peer,
            call,
            route,
            digits,
            answered,
            cause,
            short,
            long,
        } = *self;
        let own = Flag(own);
        let peer = Flag(peer);
        let short = Due(short);
        let long = Due(long);
        let standing = format_args!("{state} partner {partner} own {own} peer {peer}");
        let course = format_args!(
            "call {call} route {route} digits {digits} answer {answered} cause {cause}"
        );
        let timers = format_args!("short {short} long {long}");
        write!(f, "{standing} {course} {timers}")
    }
}
