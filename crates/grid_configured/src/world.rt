// Workers on the variants of a network with configured buses. A connect or disconnect that names a configured bus is a
// step of the node/breaker world too, where it changes nothing, so that both histories have the same steps. A view is
// made before its step, so that running out of memory changes nothing.
ghost use Rattle.std.specs.Prelude.{◌≡◌, ◌<◌, if◌then◌else◌, length, slice_get, Some, IsTrue, OnOk, OnErr, IfOk};
ghost use Rattle.grid_ids.specs.Name.{has_id};
ghost use Rattle.grid_core.specs.Fitting.{RowsFit};
ghost use Rattle.grid_core.specs.History as histories;
ghost use Rattle.grid_core.specs.History.{command, live};
ghost use Rattle.grid_core.specs.Journals.{journal_of};
ghost use Rattle.grid_configured.specs.Names.{IsConfiguredRequest};
ghost use Rattle.grid_configured.specs.Checks.{IsTranslatable};
ghost use Rattle.grid_configured.specs.Sites.{bus_ids};
ghost use Rattle.grid_configured.specs.Translation.{translated};
ghost use Rattle.grid_configured.specs.Viewed.{seen_at};
ghost use Rattle.grid_configured.specs.Histories as configured;
ghost use Rattle.grid_configured.specs.Histories.{begun, longer};
ghost use Rattle.grid_configured.specs.Told.{told_reply, bus_refusal, IsTerminalAsked, IsPassed};
ghost use Rattle.grid_configured.specs.Worlds.{bus_count};

use crate::seeing::tell_view;
use crate::translation::translate;
use crate::{ConfiguredNetwork, ConfiguredReply, ConfiguredView};
use grid_busview::{bus_view, record_watts};
use grid_core::{Journal, Refusal, Reply, Request, World};
use grid_ids::{Id, Memory};
use grid_states::States;
use grid_structure::Seeded;
use std::marker::Model;

/// Workers on the variants of a network with configured buses. It is seen as its history: the network, the count of
/// workers, and the steps, the newest first. It runs the network's node/breaker form.
#[derive(Drop)]
pub struct ConfiguredWorld {
    network: ConfiguredNetwork,
    world: World,
}

impl Model for ConfiguredWorld {
    ghost use Rattle.grid_configured.specs.Histories.{ConfiguredHistory};

    ghost Value = { ConfiguredHistory };

    ghost use Rattle.grid_configured.specs.Worlds.{history_of, IsConfiguredWorld};

    ghost view = { λ w. history_of w.network w.world };

    ghost invariant = { λ w. IsConfiguredWorld w.network w.world };
}

// The reply where a terminal is asked for in a variant that is live or not: what was told, unless it is a bus's.
#[tactic(auto, unfolding(crate::specs::Told::bus_refusal))]
fn refuse_bus(bus: bool, live: bool, told: ConfiguredReply) -> ConfiguredReply
    ensures { result ≡ if bus then bus_refusal live else told }
{
    if !bus {
        told
    } else if live {
        ConfiguredReply::Refused(Refusal::NoEquipment)
    } else {
        ConfiguredReply::Refused(Refusal::NoVariant)
    }
}

// The reply to a request of switches, terminals or variants, by that of the node/breaker form.
#[tactic(auto, unfolding(crate::specs::Told::told_reply))]
fn tell_reply(reply: Reply) -> ConfiguredReply
    ensures { result ≡ told_reply reply }
{
    match reply {
        Reply::Unchanged => ConfiguredReply::Unchanged,
        Reply::AlreadyConnected => ConfiguredReply::AlreadyConnected,
        Reply::AlreadyDisconnected => ConfiguredReply::AlreadyDisconnected,
        Reply::Created => ConfiguredReply::Created,
        Reply::Overwritten => ConfiguredReply::Overwritten,
        Reply::Refused(refusal) => ConfiguredReply::Refused(refusal),
        Reply::Done
        | Reply::Closed(_)
        | Reply::NoPath
        | Reply::Opened(_)
        | Reply::NoBreaker(_)
        | Reply::BusBreaker(_)
        | Reply::Bus(_)
        | Reply::Components(_)
        | Reply::Totals { .. } => ConfiguredReply::Done,
    }
}

impl ConfiguredWorld {
    /// Workers on the variants of a network, at first each on the initial variant, with the positions of switches and
    /// the flags of terminals as in their records. All ids of the network are plain, and no fault is found in it.
    pub fn start(
        seeded: Seeded,
        network: ConfiguredNetwork,
        workers: u32,
    ) -> Result<ConfiguredWorld, Memory>
        requires { IsTranslatable network }
        ensures { IfOk result (λ world. world ≡ begun network workers) }
    {
        let structure = translate(seeded, &network)?;
        let world = World::start(seeded.alloc, structure, workers)?;
        Ok(ConfiguredWorld { network, world })
    }

    // How many buses the level at a place has.
    fn bus_total(&self, place: u32) -> usize
        requires { place < length self.now.network.levels }
        ensures { result ≡ bus_count self.now.network place }
    {
        self.network.levels.slice()[place as usize].buses.len()
    }

    // Whether a bus has the id.
    fn is_bus(&self, id: &Id) -> bool
        ensures { result ≡ has_id (bus_ids self.now.network) id.now }
    {
        match self.world.structure().site(id, 1) {
            Some(site) => usize::from(site.node) < self.bus_total(site.level),
            None => false,
        }
    }

    // Whether a worker's working variant is live.
    fn is_live(&self, worker: u32) -> bool
        requires { worker < self.now.workers }
        ensures { result
            ≡ histories.is_live self.now.steps (histories.working self.now.steps worker) }
    {
        match self.world.slot(worker) {
            Some(_) => true,
            None => false,
        }
    }

    // The view of the level at a place, where the switches of the node/breaker form have the flags of these states.
    fn seen(&self, states: &States, place: u32) -> Result<ConfiguredView, Memory>
        requires inside { place < length self.now.network.levels }
        requires rows { RowsFit (translated self.now.network) states.now.opened }
        ensures { IfOk result (λ view. seen_at self.now.network states.now.opened place ≡ Some view) }
    {
        let alloc = self.world.allocator();
        let level = self.world.structure().level(place);
        let watts = record_watts(alloc, level)?;
        let view = bus_view(alloc, level, states.opened_row(place), watts.slice())?;
        tell_view(alloc, view, self.bus_total(place))
    }

    // The reply to a worker that asks for the view of a level.
    fn reply_view(&self, worker: u32, level: &Id) -> Result<ConfiguredReply, Memory>
        requires { worker < self.now.workers }
        ensures { IfOk result (λ r. r
            ≡ configured.reply_to self.now.network self.now.steps worker
            (Request.BusView level.now)) }
    {
        let structure = self.world.structure();
        if !self.is_live(worker) {
            return Ok(ConfiguredReply::Refused(Refusal::NoVariant));
        }
        match structure.find_level(level) {
            Some(place) => Ok(ConfiguredReply::View(self.seen(self.world.states(worker), place)?)),
            None => Ok(ConfiguredReply::Refused(Refusal::NoLevel)),
        }
    }

    // A step that asks for the view of a level.
    fn look(
        &mut self,
        worker: u32,
        request: &Request,
        level: &Id,
    ) -> Result<ConfiguredReply, Memory>
        requires worker { worker < self.old.workers }
        requires view { request.now ≡ Request.BusView level.now }
        requires plain { IsConfiguredRequest request.now }
        ensures reply { IfOk result (λ r. r
            ≡ configured.reply self.old.network self.old.steps (command worker request.now)) }
        ensures ok { OnOk result (self.new ≡ longer self.old (command worker request.now)) }
        ensures err { OnErr result (self.new ≡ self.old) }
    {
        let reply = self.reply_view(worker, level)?;
        drop(self.world.step(worker, request)?);
        Ok(reply)
    }

    // A step that connects or disconnects a terminal of an equipment.
    fn plug(&mut self, worker: u32, request: &Request, id: &Id) -> Result<ConfiguredReply, Memory>
        requires worker { worker < self.old.workers }
        requires asked { IsTerminalAsked id.now request.now }
        requires plain { IsConfiguredRequest request.now }
        ensures reply { IfOk result (λ r. r
            ≡ configured.reply self.old.network self.old.steps (command worker request.now)) }
        ensures ok { OnOk result (self.new ≡ longer self.old (command worker request.now)) }
        ensures err { OnErr result (self.new ≡ self.old) }
    {
        let bus = self.is_bus(id);
        let live = self.is_live(worker);
        let told = tell_reply(self.world.step(worker, request)?);
        Ok(refuse_bus(bus, live, told))
    }

    // A step of a switch or of variants.
    fn pass(&mut self, worker: u32, request: &Request) -> Result<ConfiguredReply, Memory>
        requires worker { worker < self.old.workers }
        requires asked { IsPassed request.now }
        requires plain { IsConfiguredRequest request.now }
        ensures reply { IfOk result (λ r. r
            ≡ configured.reply self.old.network self.old.steps (command worker request.now)) }
        ensures ok { OnOk result (self.new ≡ longer self.old (command worker request.now)) }
        ensures err { OnErr result (self.new ≡ self.old) }
    {
        Ok(tell_reply(self.world.step(worker, request)?))
    }

    /// Makes one step of a worker, whose number is below the count, and answers its reply. The request is one of the
    /// eight commands `use`, `open`, `close`, `connect`, `disconnect`, `bus_view`, `clone` and `remove`, and its ids
    /// are plain. Where memory runs out the world is as before.
    #[tactic(auto, unfolding(crate::specs::Told::is_passed))]
    pub fn step(&mut self, worker: u32, request: &Request) -> Result<ConfiguredReply, Memory>
        requires worker { worker < self.old.workers }
        requires plain { IsConfiguredRequest request.now }
        ensures reply { IfOk result (λ r. r
            ≡ configured.reply self.old.network self.old.steps (command worker request.now)) }
        ensures ok { OnOk result (self.new ≡ longer self.old (command worker request.now)) }
        ensures err { OnErr result (self.new ≡ self.old) }
    {
        match request {
            Request::BusView { level } => self.look(worker, request, level),
            Request::Connect { id, .. } | Request::Disconnect { id, .. } => {
                self.plug(worker, request, id)
            }
            _ => self.pass(worker, request),
        }
    }

    /// The network, as it was at the start: no step changes it.
    pub fn network(&self) -> &ConfiguredNetwork
        ensures { result.now ≡ self.now.network }
    {
        &self.network
    }

    /// How many variants are live. It takes no memory.
    pub fn variant_count(&self) -> u32
        ensures { result ≡ length (live self.now.steps) }
    {
        self.world.variant_count()
    }

    /// The name of a live variant at a place, by byte order. It takes no memory.
    pub fn variant_name(&self, place: u32) -> &Id
        requires { place < length (live self.now.steps) }
        ensures { slice_get (live self.now.steps) place ≡ Some result.now }
    {
        self.world.variant_name(place)
    }

    /// The view of the level at a place in a live variant.
    pub fn view(&self, name: &Id, level: u32) -> Result<ConfiguredView, Memory>
        requires live { IsTrue (histories.is_live self.now.steps name.now) }
        requires level { level < length self.now.network.levels }
        ensures { IfOk result (λ view. configured.view self.now.network self.now.steps name.now
            level ≡ Some view) }
    {
        self.seen(self.world.states_in(name), level)
    }

    /// The journal of the node/breaker form: of each step, in order, the worker, its working variant before it, and the
    /// request. Its replies and events are those of the node/breaker form. It takes no memory.
    pub fn into_journal(self) -> Journal
        ensures { result ≡ journal_of (translated self.network) self.steps }
    {
        self.world.into_journal()
    }
}
