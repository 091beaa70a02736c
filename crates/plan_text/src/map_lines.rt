//! The lines of maps, written without memory.

ghost use Rattle.std.specs.Prelude.{[], ◌∷◌, flat_map};
ghost use Rattle.watched.specs.Watched.{Sends};
ghost use Rattle.plan_text.specs.PlanGrammar.{inner_line, inner_lines, map_line, map_lines};
ghost use Rattle.plan_lines.specs.Words.{text_of_lines};

use crate::plan::PlanMap;
use ebpf_items::Watched;
use plan_lines::{MapWords, numbers_of, send_bytes, send_decimal, send_form, send_numbers};
use std::io::Write;

fn send_map_line<W: Write>(out: &mut Watched<W>, map: &PlanMap<'_>)
    ensures { Sends W.contents out.old out.new (text_of_lines (map_line map.now ∷ [])) }
{
    out.send(b"map ");
    send_bytes(out, map.name().as_bytes());
    out.send(b" ");
    send_decimal(out, u64::from(map.number()));
    out.send(b" ");
    send_form(out, map.is_btf());
    let numbers = numbers_of(map.words());
    send_numbers(out, &numbers);
    out.send(b" ");
    send_bytes(out, map.contents());
    out.send(b"\n");
}

fn send_inner_line<W: Write>(out: &mut Watched<W>, words: MapWords)
    ensures { Sends W.contents out.old out.new (text_of_lines (inner_line words ∷ [])) }
{
    out.send(b"inner");
    let numbers = numbers_of(words);
    send_numbers(out, &numbers);
    out.send(b"\n");
}

fn send_inner_lines<W: Write>(out: &mut Watched<W>, inner: Option<MapWords>)
    ensures { Sends W.contents out.old out.new (text_of_lines (inner_lines inner)) }
{
    if let Some(words) = inner {
        send_inner_line(out, words);
    }
}

fn send_map<W: Write>(out: &mut Watched<W>, map: &PlanMap<'_>)
    ensures { Sends W.contents out.old out.new (text_of_lines (map_lines map.now)) }
{
    send_map_line(out, map);
    send_inner_lines(out, map.inner());
}

/// Sends the lines of maps.
pub(crate) fn send_maps<W: Write>(out: &mut Watched<W>, maps: &[PlanMap<'_>])
    ensures { Sends W.contents out.old out.new (text_of_lines (flat_map map_lines maps.now)) }
{
    for map in maps {
        send_map(out, map);
    }
}
