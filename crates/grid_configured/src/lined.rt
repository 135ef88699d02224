// The lines of a report's parts.
ghost use Rattle.std.specs.Prelude.{◌∷◌, [], true, codes};
ghost use Rattle.serde_json.specs.Written.{compact_text};
ghost use Rattle.grid_print.specs.Job.{line_of};
ghost use Rattle.grid_report.specs.Puts.{Puts};
ghost use Rattle.grid_jsonl.specs.Trees.{field_text};
ghost use Rattle.grid_jsonl.specs.Replies.{answer_of};
ghost use Rattle.grid_configured.specs.Outcomes.{told_entry};
ghost use Rattle.grid_configured.specs.Lines.{bus_value, buses_value, command_object, level_object, placed, reply_value};

use crate::plan::{Block, Step};
use crate::{ConfiguredBus, ConfiguredReply, ConfiguredView};
use grid_ids::{Id, Memory};
use grid_jsonl::{
    Lined, WrittenIn, open_bus, open_with, put_array, put_array_in, put_asked_step, put_end_line,
    put_id, put_name, put_order_line, put_refused, put_sum_of, put_variant_line, put_word,
};
use grid_report::Text;

impl WrittenIn for ConfiguredBus {
    ghost written_in = { bus_value };

    #[tactic(auto, unfolding(crate::specs::Lines::bus_value))]
    fn put_in(&self, out: &mut Text, level: &Id) -> Result<(), Memory> {
        open_bus(out, level, self.place)?;
        put_array(out, "configured", self.buses.slice())?;
        put_array(out, "terminals", self.terminals.slice())?;
        put_sum_of(out, "load", &self.load)?;
        put_sum_of(out, "generation", &self.generation)?;
        out.put("}")
    }
}

fn put_view(out: &mut Text, view: &ConfiguredView) -> Result<(), Memory>
    ensures { Puts out.old
        (compact_text (answer_of (codes "bus_view") ((codes "buses", buses_value view.now) ∷ [])))
        out.new result }
{
    open_with(out, "answer", "bus_view")?;
    put_array_in(out, "buses", &view.level, view.buses.slice())?;
    out.put("}")
}

// Puts a reply, as an object.
#[tactic(auto, unfolding(crate::specs::Lines::reply_value))]
fn put_reply(out: &mut Text, reply: &ConfiguredReply) -> Result<(), Memory>
    ensures { Puts out.old (compact_text (reply_value reply.now)) out.new result }
{
    match reply {
        ConfiguredReply::Done => put_word(out, "done"),
        ConfiguredReply::Unchanged => put_word(out, "unchanged"),
        ConfiguredReply::AlreadyConnected => put_word(out, "already connected"),
        ConfiguredReply::AlreadyDisconnected => put_word(out, "already disconnected"),
        ConfiguredReply::View(view) => put_view(out, view),
        ConfiguredReply::Created => put_word(out, "created"),
        ConfiguredReply::Overwritten => put_word(out, "overwritten"),
        ConfiguredReply::Refused(refusal) => put_refused(out, refusal),
    }
}

#[tactic(auto, unfolding(grid_jsonl::specs::Trees::field_text))]
fn put_answered(out: &mut Text, reply: &ConfiguredReply) -> Result<(), Memory>
    ensures { Puts out.old (field_text true (codes "reply", reply_value reply.now)) out.new result }
{
    put_name(out, "reply")?;
    put_reply(out, reply)
}

fn put_step_line(out: &mut Text, step: &Step<'_>) -> Result<(), Memory>
    ensures { Puts out.old
        (line_of (command_object (placed step.now.place step.now.number
        (told_entry step.now.entry.now step.now.reply.now))))
        out.new result }
{
    open_with(out, "kind", "command")?;
    out.put(",")?;
    put_asked_step(out, step.place, step.number, step.entry)?;
    put_answered(out, step.reply)?;
    out.put("}\n")
}

fn put_level_line(out: &mut Text, name: &Id, view: &ConfiguredView) -> Result<(), Memory>
    ensures { Puts out.old (line_of (level_object name.now view.now)) out.new result }
{
    open_with(out, "kind", "level")?;
    put_id(out, "variant", name)?;
    put_id(out, "level", &view.level)?;
    put_array_in(out, "buses", &view.level, view.buses.slice())?;
    out.put("}\n")
}

impl Lined for Block<'_> {
    ghost use Rattle.grid_configured.specs.Blocks.{block_lines};

    ghost lined = { block_lines };

    fn put_lines(&self, out: &mut Text) -> Result<(), Memory> {
        match self {
            Block::Order(journal) => put_order_line(out, journal),
            Block::Worker(_) => Ok(()),
            Block::Step(step) => put_step_line(out, step),
            Block::Variant(name) => put_variant_line(out, name),
            Block::Level(name, view) => put_level_line(out, name, view),
            Block::End(counts) => put_end_line(out, counts),
        }
    }
}
