//! A plan as text, written without memory.

ghost use Rattle.std.specs.Prelude.{◌≡◌, ◌↔◌, [], ◌∷◌, map, true, OnOk, OnErr, IsErr};
ghost use Rattle.std.specs.Io.KnownBytes.{Appends};
ghost use Rattle.std.specs.Option.{option_map};
ghost use Rattle.watched.specs.Watched.{watched_inner, has_failed, AppendsPart, Sends};
ghost use Rattle.plan_text.specs.PlanGrammar.{feature_line, first_lines, text_of, types_line, IsTextOf};
ghost use Rattle.plan_lines.specs.Words.{text_of_lines};
ghost use Rattle.plan_lines.specs.declared.line.TextVersion.TheVariants.{Second};

use crate::laws::texts_are_read_back;
use crate::map_lines::send_maps;
use crate::plan::Plan;
use crate::program_lines::send_programs;
use btf_records::BtfFeature;
use ebpf_items::Watched;
use plan_lines::{answer_word, feature_word, send_bytes, send_types, send_version};
use std::io;
use std::io::{ErrorKind, Write};

fn send_first_lines<W: Write>(out: &mut Watched<W>, plan: &Plan<'_>)
    ensures { Sends W.contents out.old out.new (text_of_lines (first_lines Second plan.now)) }
{
    out.send(b"bpf-plan 2\nlicense ");
    send_bytes(out, plan.license());
    out.send(b"\nversion ");
    send_version(out, plan.version());
    out.send(b"\n");
}

fn send_feature_line<W: Write>(out: &mut Watched<W>, answer: &(BtfFeature, bool))
    ensures { Sends W.contents out.old out.new (text_of_lines (feature_line answer.now ∷ [])) }
{
    out.send(b"feature ");
    out.send(feature_word(answer.0));
    out.send(b" ");
    out.send(answer_word(answer.1));
    out.send(b"\n");
}

fn send_feature_lines<W: Write>(out: &mut Watched<W>, answers: &[(BtfFeature, bool)])
    ensures { Sends W.contents out.old out.new (text_of_lines (map feature_line answers.now)) }
{
    for answer in answers {
        send_feature_line(out, answer);
    }
}

fn send_types_line<W: Write>(out: &mut Watched<W>, plan: &Plan<'_>)
    ensures { Sends W.contents out.old out.new
        (text_of_lines (types_line plan.now.type_bytes ∷ [])) }
{
    out.send(b"types ");
    send_types(out, plan.type_bytes());
    out.send(b"\n");
}

fn send_plan<W: Write>(out: &mut Watched<W>, plan: &Plan<'_>)
    ensures { Sends W.contents out.old out.new (text_of plan.now) }
{
    send_first_lines(out, plan);
    send_feature_lines(out, plan.features());
    send_types_line(out, plan);
    send_maps(out, plan.maps());
    send_programs(out, plan.programs());
    out.send(b"end\n");
}

impl<'a> Plan<'a> {
    /// Writes the text of the plan, in its second version, without taking memory. Each plan has its
    /// text, and `Plan::read` gives the plan back from it.
    ///
    /// # Errors
    ///
    /// An error where the writer fails, or returns 0 for some bytes. A prefix of the text has then
    /// been written.
    pub fn write<W: Write>(&self, out: &mut Watched<W>) -> io::Result<()>
        ensures text { IsTextOf self.now (text_of self.now) }
        ensures ok { OnOk result
            (Appends (W.contents (watched_inner out.old)) (W.contents (watched_inner out.new))
            (text_of self.now)) }
        ensures part { OnErr result
            (AppendsPart (W.contents (watched_inner out.old)) (W.contents (watched_inner out.new))
            (text_of self.now)) }
        ensures failed { IsErr result ↔ (has_failed out.new ≡ true) }
        ensures at_once { has_failed out.old ≡ true → out.new ≡ out.old }
    {
        texts_are_read_back(self);
        send_plan(out, self);
        if out.failed() {
            return Err(io::Error::from(ErrorKind::Other));
        }
        Ok(())
    }
}
