//! The cache that a script drives.
ghost use Rattle.std.specs.Prelude.{◌≡◌, None, false, refl, map, option_map, is_some, unwrap_or, IfOk, IfErr, OnOk};
ghost use Rattle.std.specs.Arc.{arc_value};
ghost use Rattle.std.specs.String.{string_bytes};
ghost use Rattle.std.proofs.Math.Path.{◌∙◌};
ghost use Rattle.moka_model.specs.Lives.{no_lifetimes};
ghost use Rattle.moka_policy.specs.Policy.{is_lru};
ghost use Rattle.mokabox_syntax.specs.OutputLine.{output_text};
ghost use Rattle.moka_model.specs.Entries.{entry_of};
ghost use Rattle.moka_state.specs.Finish.{outcome_of};
ghost use Rattle.moka_turns.specs.Handles.{name_by};
ghost use Rattle.mokabox_syntax.specs.Command.{plain_command};
ghost use Rattle.mokabox_syntax.specs.Turn.{plain_ending};
ghost use Rattle.mokabox_interpreter.specs.Script.{beginning, is_lru_by, cache_settings, settings_refused, output_of, became_of, run_of, entered_of, ending_by, name_of_turn};
ghost use Rattle.mokabox_interpreter.specs.Session.{IsAt, HasSettings, IsStepOf, Prints, IsWholeWalk, holds_of};
ghost use Rattle.mokabox_syntax.specs.Settings.{byte_weight};
ghost use Rattle.mokabox_syntax.specs.declared.command.Command.TheVariants as commands;

use crate::one_of::OneOf;
use moka::Entry;
use moka::common::builder_utils::BuildError;
use moka::common::iter::WalkCursor;
use moka::ops::compute::{CompResult, Op};
use moka::policy::{
    CacheTypes, CountTable, EvictionPolicy, ManualClock, NoExpiry, NoListener, NumberHash, Refused,
    Weigher,
};
use moka::state::{Reply, Step};
use moka::sync::CacheBuilder;
use moka::sync::builder::Single;
use moka::sync::segment::SegmentedState;
use moka::sync::value_initializer::{Kind, Outcome, TurnName};
use mokabox_syntax::command::Command;
use mokabox_syntax::output_line::{Became, Live, Measure, OutputLine, Pairs};
use mokabox_syntax::settings;
use mokabox_syntax::settings::{Eviction, Weighing};
use mokabox_syntax::turn::{Ending, TurnOf};
use std::alloc::{AllocError, Global};
use std::hash::BuildHasherDefault;
use std::sync::Arc;
use std::time::Duration;

// The step of a command, and the reply of the cache to it.
type ScriptStep = Step<u64, String, ScriptTypes>;

type ScriptReply = Reply<u64, String, ScriptTypes>;

/// The types of a script's cache: the keys are numbers, which are their own hashes, and the values
/// are texts.
pub struct ScriptTypes;

impl CacheTypes<u64, String> for ScriptTypes {
    type Hasher = BuildHasherDefault<NumberHash>;

    type Weigher = Bytes;

    type Expiry = NoExpiry;

    type Predicate = OneOf;

    type Frequency = CountTable<6>;

    type Listener = NoListener;

    type Clock = ManualClock;

    type Error = String;

    ghost weight = { λ _ _ text. byte_weight (string_bytes text) };

    ghost equal_keys_weigh = { λ _ _ _ _ _. refl };

    ghost lifetimes = { λ _. no_lifetimes };

    ghost test = { holds_of };

    ghost keeps = { λ _ _. Unit {0} };

    ghost equal_keys_keep = { λ _ _ _ _ _. tt };

    ghost copies_keep = { λ _ _ _ _ _. tt };

    ghost copies_compose = { λ _ _ _ a b. b ∙ a };
}

/// Weighs each text by its length in bytes, at most `u32::MAX`.
#[derive(Clone, Copy, Debug)]
pub struct Bytes;

impl Weigher<u64, String> for Bytes {
    ghost weighs = { λ _ weight. weight ≡ (λ _ text. byte_weight (string_bytes text)) };

    fn weigh(&self, _key: &u64, text: &String) -> u32 {
        u32::try_from(text.len()).unwrap_or(u32::MAX)
    }
}

/// A cache, and the moment of the next command in nanoseconds.
#[derive(Drop)]
pub struct Session {
    alloc: Global,
    cache: SegmentedState<u64, String, ScriptTypes>,
    moment: u64,
}

impl Session {
    /// Creates a cache with these settings, at moment 0.
    ///
    /// # Errors
    ///
    /// The first of these that applies:
    ///
    /// - `NoSegments`, `TooManySegments`: the number of segments is 0 or too great.
    /// - `TimeToLiveTooLong`, `TimeToIdleTooLong`: a lifetime is too long.
    /// - `ZeroFlushLimit`, `FlushLimitWithWeigher`: the flush limit is 0, or is set with a weigher.
    /// - `OutOfMemory`: an allocation failed.
    pub fn new(alloc: Global, settings: settings::Settings) -> Result<Self, BuildError>
        ensures begun { IfOk result (λ session. IsAt session.cache session.moment
            (cache_settings settings) beginning) }
        ensures accepted { OnOk result (settings_refused settings ≡ None) }
        ensures refused { IfErr result
            (λ cause. cause ≡ unwrap_or (settings_refused settings) BuildError.OutOfMemory) }
    {
        let wanted = settings.segments.unwrap_or(1) as usize;
        let builder = builder_of(settings).segments(wanted)?;
        let cache = builder.build_segmented_state(alloc, BuildHasherDefault::default())?;
        Ok(Session {
            alloc,
            cache,
            moment: 0,
        })
    }

    /// Does a command, and returns the lines that it prints.
    ///
    /// # Errors
    ///
    /// - `AllocError`: an allocation failed, for the lines or for the arguments of the step. The
    ///   command may be done.
    pub fn execute(&mut self, command: Command<&str>) -> Result<Vec<OutputLine>, AllocError>
        ensures { IfOk result (λ outputs. Prints self.old.cache self.old.moment
            (plain_command command.entry)
            (map output_text outputs.items) self.new.cache self.new.moment) }
    {
        let now = self.moment;
        let step = match command {
            Command::At(moment) => {
                self.moment = moment;
                return Ok(Vec::new(self.alloc));
            }
            Command::Notices => return self.notices(),
            Command::Policy => return self.policy(),
            Command::Walk => return self.walk(),
            Command::Insert(key, value) => self.insert(key, value)?,
            Command::OrInsert(key, value) => self.or_insert(key, value)?,
            Command::Get(key) => self.get(key)?,
            Command::Has(key) => self.contains_key(key)?,
            Command::Invalidate(key) => self.invalidate(key)?,
            Command::Remove(key) => self.remove(key)?,
            Command::InvalidateAll => Step::InvalidateAll,
            Command::InvalidateIf(texts) => self.invalidate_if(texts)?,
            Command::Tasks => Step::RunPendingTasks { now },
            Command::TasksUpTo(limit) => Step::RunPendingTasksUpTo { limit, now },
            Command::Count => Step::EntryCount,
            Command::Weight => Step::WeightedSize,
            Command::Begin(kind, key, replace) => self.begin(kind, key, replace)?,
            Command::BeginCompute(key) => self.begin_compute(key)?,
            Command::Finish(turn, ending) => self.finish(turn, ending)?,
            Command::Abandon(turn) => self.abandon(turn)?,
            Command::Collect(turn) => self.collect(turn)?,
            Command::Leave(turn) => self.leave(turn)?,
        };
        let output = output_of(self.alloc, self.cache.step(step))?;
        Ok(vec![in self.alloc; output]?)
    }

    // Returns the step that inserts a value.
    fn insert(&self, key: u64, value: &str) -> Result<ScriptStep, AllocError>
        ensures { IfOk result (λ step. IsStepOf self.now.moment (commands.Insert key value.now)
            step) }
    {
        Ok(Step::Insert {
            key: self.share_key(key)?,
            value: String::from_str(self.alloc, value)?,
            now: self.moment,
        })
    }

    // Returns the step that looks up a key, and inserts a value if none is live.
    fn or_insert(&self, key: u64, value: &str) -> Result<ScriptStep, AllocError>
        ensures { IfOk result (λ step. IsStepOf self.now.moment (commands.OrInsert key value.now)
            step) }
    {
        Ok(Step::OrInsert {
            key: self.share_key(key)?,
            value: String::from_str(self.alloc, value)?,
            now: self.moment,
        })
    }

    // Returns the step that looks up a key, as an access.
    fn get(&self, key: u64) -> Result<ScriptStep, AllocError>
        ensures { IfOk result (λ step. IsStepOf self.now.moment (commands.Get key) step) }
    {
        Ok(Step::Get {
            key: self.share_key(key)?,
            now: self.moment,
        })
    }

    // Returns the step that checks a key, not as an access.
    fn contains_key(&self, key: u64) -> Result<ScriptStep, AllocError>
        ensures { IfOk result (λ step. IsStepOf self.now.moment (commands.Has key) step) }
    {
        Ok(Step::ContainsKey {
            key: self.share_key(key)?,
            now: self.moment,
        })
    }

    // Returns the step that invalidates a key.
    fn invalidate(&self, key: u64) -> Result<ScriptStep, AllocError>
        ensures { IfOk result (λ step. IsStepOf self.now.moment (commands.Invalidate key) step) }
    {
        Ok(Step::Invalidate {
            key: self.share_key(key)?,
            now: self.moment,
        })
    }

    // Returns the step that removes a key, and returns its value.
    fn remove(&self, key: u64) -> Result<ScriptStep, AllocError>
        ensures { IfOk result (λ step. IsStepOf self.now.moment (commands.Remove key) step) }
    {
        Ok(Step::Remove {
            key: self.share_key(key)?,
            now: self.moment,
        })
    }

    // Returns the step that invalidates each entry whose value is one of these texts.
    fn invalidate_if(&self, texts: &str) -> Result<ScriptStep, AllocError>
        ensures { IfOk result (λ step. IsStepOf self.now.moment (commands.InvalidateIf texts.now)
            step) }
    {
        let predicate = OneOf::new(self.alloc, texts)?;
        Ok(Step::InvalidateIf {
            predicate: Arc::new(self.alloc, predicate)?,
        })
    }

    // Returns the step that begins a turn.
    fn begin(&self, kind: Kind, key: u64, replace: Option<bool>) -> Result<ScriptStep, AllocError>
        ensures { IfOk result (λ step. IsStepOf self.now.moment (commands.Begin kind key replace)
            step) }
    {
        Ok(Step::Begin {
            key: self.share_key(key)?,
            kind,
            replace,
            now: self.moment,
        })
    }

    // Returns the step that begins a compute, which keeps a clone of the live value.
    fn begin_compute(&self, key: u64) -> Result<ScriptStep, AllocError>
        ensures { IfOk result (λ step. IsStepOf self.now.moment (commands.BeginCompute key) step) }
    {
        Ok(Step::BeginCompute {
            key: self.share_key(key)?,
            keep: true,
            now: self.moment,
        })
    }

    // Returns the step that finishes a turn.
    fn finish(&self, turn: TurnOf, ending: Ending<&str>) -> Result<ScriptStep, AllocError>
        ensures { IfOk result (λ step.
            IsStepOf self.now.moment (commands.Finish turn (plain_ending ending.entry)) step) }
    {
        Ok(Step::Finish {
            name: self.name(turn)?,
            outcome: self.outcome(ending)?,
            now: self.moment,
        })
    }

    // Returns the step that abandons a turn.
    fn abandon(&self, turn: TurnOf) -> Result<ScriptStep, AllocError>
        ensures { IfOk result (λ step. IsStepOf self.now.moment (commands.Abandon turn) step) }
    {
        let name = self.name(turn)?;
        Ok(Step::Abandon { name })
    }

    // Returns the step that collects the result of a turn.
    fn collect(&self, turn: TurnOf) -> Result<ScriptStep, AllocError>
        ensures { IfOk result (λ step. IsStepOf self.now.moment (commands.Collect turn) step) }
    {
        let name = self.name(turn)?;
        Ok(Step::Collect { name })
    }

    // Returns the step that gives up waiting for a turn.
    fn leave(&self, turn: TurnOf) -> Result<ScriptStep, AllocError>
        ensures { IfOk result (λ step. IsStepOf self.now.moment (commands.Leave turn) step) }
    {
        let name = self.name(turn)?;
        Ok(Step::Leave { name })
    }

    // Returns the line of the cache's policy, with lifetimes in seconds.
    fn policy(&self) -> Result<Vec<OutputLine>, AllocError>
        ensures { IfOk result (λ outputs. Prints self.now.cache self.now.moment commands.Policy
            (map output_text outputs.items) self.now.cache self.now.moment) }
    {
        let policy = self.cache.policy();
        let output = OutputLine::Policy(
            Measure(policy.max_capacity()),
            Measure(policy.time_to_live().map(|life| life.as_secs())),
            Measure(policy.time_to_idle().map(|life| life.as_secs())),
            policy.num_segments() as u64,
        );
        Ok(vec![in self.alloc; output]?)
    }

    // Returns the line of all live pairs, by increasing key, or that of the error if one of them
    // cannot be cloned.
    fn walk(&self) -> Result<Vec<OutputLine>, AllocError>
        ensures { IfOk result (λ outputs. Prints self.now.cache self.now.moment commands.Walk
            (map output_text outputs.items) self.now.cache self.now.moment) }
    {
        match self.live_pairs()? {
            Ok(mut pairs) => {
                pairs.sort_unstable_by_key(|pair| pair.0);
                Ok(vec![in self.alloc; OutputLine::Walked(Pairs(pairs))]?)
            }
            Err(cause) => Ok(vec![in self.alloc; OutputLine::Refused(cause)]?),
        }
    }

    // Returns all live pairs, in no order. The inner `Err` is a failure of the iteration.
    fn live_pairs(&self) -> Result<Result<Vec<(u64, String)>, Refused>, AllocError>
        ensures pairs { IfOk result (λ walked. IfOk walked (λ pairs.
            IsWholeWalk self.now.cache self.now.moment pairs.items)) }
        ensures cause { IfOk result (λ walked. IfErr walked
            (λ cause. cause ≡ Refused.OutOfMemory)) }
    {
        let states = self.cache.segments();
        let mut cursor = WalkCursor::new();
        let mut pairs = Vec::new(self.alloc);
        while let Some(pair) = cursor.next(states, self.moment) {
            match pair {
                Ok((key, value)) => pairs.push((*key, value))?,
                Err(refused) => return Ok(Err(refused)),
            }
        }
        Ok(Ok(pairs))
    }

    // Returns a key in the form that a step takes.
    fn share_key(&self, key: u64) -> Result<Arc<u64>, AllocError>
        ensures { IfOk result (λ shared. arc_value shared ≡ key) }
    {
        Ok(Arc::new(self.alloc, key)?)
    }

    // Returns the name of a turn in the form that a step takes.
    fn name(&self, turn: TurnOf) -> Result<TurnName<u64>, AllocError>
        ensures { IfOk result (λ name. name_by name ≡ name_of_turn turn) }
    {
        Ok(TurnName {
            number: turn.number,
            kind: turn.kind,
            key: self.share_key(turn.key)?,
        })
    }

    // Returns what a turn is finished with, in the form that a step takes.
    fn outcome(&self, ending: Ending<&str>) -> Result<Outcome<String, Arc<String>>, AllocError>
        ensures { IfOk result (λ outcome. ending_by (outcome_of outcome)
            ≡ plain_ending ending.entry) }
    {
        Ok(match ending {
            Ending::Value(value) => Outcome::Value(String::from_str(self.alloc, value)?),
            Ending::Nothing => Outcome::Nothing,
            Ending::Failed(text) => {
                let error = String::from_str(self.alloc, text)?;
                Outcome::Failed(Arc::new(self.alloc, error)?)
            }
            Ending::Put(value) => Outcome::Op(Op::Put(String::from_str(self.alloc, value)?)),
            Ending::Remove => Outcome::Op(Op::Remove),
            Ending::Nop => Outcome::Op(Op::Nop),
        })
    }

    // Takes all notices, and once more when there is none.
    fn notices(&mut self) -> Result<Vec<OutputLine>, AllocError>
        ensures { IfOk result (λ outputs. Prints self.old.cache self.old.moment commands.Notices
            (map output_text outputs.items) self.new.cache self.new.moment) }
    {
        let mut outputs = Vec::new(self.alloc);
        while let Some(notice) = self.cache.take_notice() {
            let output = output_of(self.alloc, Reply::Noticed(Some(notice)))?;
            outputs.push(output)?;
        }
        let last = output_of(self.alloc, Reply::Noticed(None))?;
        outputs.push(last)?;
        Ok(outputs)
    }
}

// Returns what is printed for a reply of the cache. Allocates only for the text of an error.
fn output_of(alloc: Global, reply: ScriptReply) -> Result<OutputLine, AllocError>
    ensures { IfOk result (λ output. output_text output ≡ output_text (output_of reply)) }
{
    Ok(match reply {
        Reply::Found(Some(value)) => OutputLine::Found(value),
        Reply::Found(None) => OutputLine::NotFound,
        Reply::Contains(is_there) => OutputLine::Whether(is_there),
        Reply::Done => OutputLine::Done,
        Reply::Counted(count) => OutputLine::Counted(count),
        Reply::Left(is_left) => OutputLine::Unfinished(is_left),
        Reply::Noticed(Some(notice)) => OutputLine::Left(*notice.key, notice.value, notice.cause),
        Reply::Noticed(None) => OutputLine::End,
        Reply::Entered(entry) => entered_of(entry),
        Reply::Run(name, shown) => run_of(name, shown),
        Reply::Wait(name) => OutputLine::Waits(name.number),
        Reply::Nothing => OutputLine::Nothing,
        Reply::Failed(error) => OutputLine::Failed(String::from_str(alloc, error.as_str())?),
        Reply::Computed(result) => OutputLine::Computed(became_of(result)),
        Reply::NotYet => OutputLine::NotYet,
        Reply::Abandoned => OutputLine::Abandoned,
        Reply::Ended => OutputLine::Ended,
        Reply::Refused(refused) => OutputLine::Refused(refused),
        Reply::PredicateRefused(refused) => OutputLine::NotHidden(refused),
    })
}

// Returns what is printed for a turn that was opened: with the live value if it is a compute.
fn run_of(name: TurnName<u64>, shown: Option<Entry<u64, String>>) -> OutputLine
    ensures { result ≡ run_of name.kind name.number (option_map entry_of shown) }
{
    match name.kind {
        Kind::Compute => OutputLine::Shown(
            name.number,
            Live(shown.map(|entry| entry.into_value())),
        ),
        Kind::With | Kind::Optionally | Kind::Try => OutputLine::Run(name.number),
    }
}

// Returns what is printed for the result of a compute.
fn became_of(computed: CompResult<u64, String>) -> Became
    ensures { result ≡ became_of computed }
{
    match computed {
        CompResult::StillNone(key) => Became::StillNone(*key),
        CompResult::Unchanged(entry) => Became::Unchanged(*entry.key(), entry.into_value()),
        CompResult::Inserted(entry) => Became::Inserted(*entry.key(), entry.into_value()),
        CompResult::ReplacedWith(entry) => Became::ReplacedWith(*entry.key(), entry.into_value()),
        CompResult::Removed(entry) => Became::Removed(*entry.key(), entry.into_value()),
    }
}

// Returns what is printed for an entry.
fn entered_of(entry: Entry<u64, String>) -> OutputLine
    ensures { result ≡ entered_of (entry_of entry) }
{
    let key = *entry.key();
    let is_fresh = entry.is_fresh();
    let is_replaced = entry.is_old_value_replaced();
    OutputLine::Entered(key, entry.into_value(), is_fresh, is_replaced)
}

// The builder of a script's cache.
type Builder = CacheBuilder<u64, String, ScriptTypes, Single>;

// Returns the builder of a cache with these settings.
fn builder_of(settings: settings::Settings) -> Builder
    ensures { HasSettings settings result }
{
    let builder = CacheBuilder::default()
        .eviction_policy(policy_of(settings.policy))
        .first_number(settings.first_number.unwrap_or(0))
        .initial_capacity(settings.initial_capacity.unwrap_or(0) as usize);
    let builder = with_capacity(builder, settings.capacity);
    let builder = with_time_to_live(builder, settings.time_to_live.map(Duration::from_secs));
    let builder = with_time_to_idle(builder, settings.time_to_idle.map(Duration::from_secs));
    let builder = with_weigher(builder, settings.weigher);
    let builder = with_flush_limit(builder, settings.flush_limit);
    with_closures(builder, settings.closures)
}

// Sets the capacity, if there is one.
fn with_capacity(builder: Builder, capacity: Option<u64>) -> Builder
    requires { builder.max_capacity ≡ None }
    ensures { result ≡ record builder { max_capacity = capacity } }
{
    match capacity {
        Some(capacity) => builder.max_capacity(capacity),
        None => builder,
    }
}

// Sets the time to live, if there is one.
fn with_time_to_live(builder: Builder, time_to_live: Option<Duration>) -> Builder
    requires { builder.time_to_live ≡ None }
    ensures { result ≡ record builder { time_to_live = time_to_live } }
{
    match time_to_live {
        Some(life) => builder.time_to_live(life),
        None => builder,
    }
}

// Sets the time to idle, if there is one.
fn with_time_to_idle(builder: Builder, time_to_idle: Option<Duration>) -> Builder
    requires { builder.time_to_idle ≡ None }
    ensures { result ≡ record builder { time_to_idle = time_to_idle } }
{
    match time_to_idle {
        Some(life) => builder.time_to_idle(life),
        None => builder,
    }
}

// Sets the weigher, if the settings have one.
fn with_weigher(builder: Builder, weighing: Option<Weighing>) -> Builder
    requires { builder.weigher ≡ None }
    ensures weigher { is_some result.weigher ≡ is_some weighing }
    ensures others { result ≡ record builder { weigher = result.weigher } }
{
    match weighing {
        Some(Weighing::Bytes) => builder.weigher(Bytes),
        None => builder,
    }
}

// Sets the flush limit, if there is one.
fn with_flush_limit(builder: Builder, flush_limit: Option<u64>) -> Builder
    requires { builder.flush_limit ≡ None }
    ensures { result ≡ record builder { flush_limit = flush_limit } }
{
    match flush_limit {
        Some(limit) => builder.flush_limit(limit),
        None => builder,
    }
}

// Enables invalidation by predicates, if the settings say so.
fn with_closures(builder: Builder, closures: bool) -> Builder
    requires { builder.closures ≡ false }
    ensures { result ≡ record builder { closures = closures } }
{
    if closures {
        builder.support_invalidation_closures()
    } else {
        builder
    }
}

// Returns the eviction policy: TinyLFU unless the settings say otherwise.
fn policy_of(eviction: Option<Eviction>) -> EvictionPolicy
    ensures { is_lru result ≡ is_lru_by eviction }
{
    match eviction {
        Some(Eviction::Lru) => EvictionPolicy::lru(),
        Some(Eviction::TinyLfu) | None => EvictionPolicy::tiny_lfu(),
    }
}
