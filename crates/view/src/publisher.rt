//! The writer of the view.
ghost use Rattle.std.specs.Prelude.{◌≡◌, ◌⊎◌, ◌∷◌, ◌++◌, [], drop, length, nat_lt, IfOk, IfSome, MatchBool};
ghost use mathlib.Core.List.{IsPrefix};
ghost use Rattle.recovery.specs.Found.{commands_of};
ghost use Rattle.recovery.specs.Moment.{IsMomentOf, moment_of};
ghost use Rattle.revision.specs.Made.{AreMade};
ghost use Rattle.revision.specs.State.{fold};
ghost use Rattle.world.specs.World.{takens};
ghost use Rattle.published.specs.Moments.{AreMoments};
ghost use Rattle.view.specs.Published.{Published};
ghost use Rattle.view.specs.Publishing.{Publishes, ShowsNext};
ghost use Rattle.view.specs.Stages.{AreShown, IsNext, news_of as to_show};

use crate::shown::{Basis, InLog, News, Sees, Shown};
use crate::viewer::Viewer;
use core::mem::replace_with;
use disk::Disk;
use document::Document;
use left_right::Absorb;
use left_right::writer::Writer;
use published::{Life, Log, Moments, Opened, Order, Ordered, Told};
use recovery::Receipt;
use revision::State;
use std::alloc::{AllocError, Global};
use std::marker::Model;
use std::sync::Wait;

/// So many viewers there may be at once.
const VIEWERS: usize = 64;

/// How far the publishing of a batch has come. In each step but the last memory may run out, and the next call continues there: so the batch
/// is put into the log once.
#[derive(Drop)]
pub enum Stage<D, L: Life> {
    /// There is none.
    Idle,
    /// It was given, with the order that has it next, and with the documents that its first commands leave.
    Held(Receipt<D>, Ordered<L>, Vec<Document>),
    /// It is in the log.
    Logged(Receipt<D>, Told<D, L>),
    /// The writer of the view has it, and doesn't show it yet.
    Queued(Receipt<D>, Told<D, L>),
}

/// What publishes committed batches to viewers: it alone puts them into the run's log. Contracts see it as the batches that are
/// published, the one that was given to be published next, and the moments of their commits. It isn't `Drop`: end it by `end`.
pub struct Publisher<D: Disk, L: Life>
where
    Shown<L>: Absorb<News<L>, State = Basis>,
{
    writer: Writer<Shown<L>, News<L>, (), InLog<L>>,
    log: Log<D, L>,
    told: Told<D, L>,
    stage: Stage<D, L>,
}

impl<D: Disk, L: Life> Model for Publisher<D, L>
where
    Shown<L>: Absorb<News<L>, State = Basis>,
{
    ghost use Rattle.std.specs.Prelude.{◌≡◌, drop};
    ghost use Rattle.view.specs.Published.{Published};

    ghost Value = { Published };

    ghost use Rattle.view.specs.Stages as spec;

    ghost view = { λ p. record {
      told = p.told;
      unpublished = spec.held_in p.stage;
      moments = spec.moments_in ⟦<D as Disk>⟧ p.log.moments p.stage;
    } };

    ghost invariant = { λ p. spec.AreShown L.start p.told p.writer.desk.shown.value
        × (drop p.writer.behind p.writer.log.items ≡ spec.waiting p.stage) × spec.IsLogged p.log.batches p.told p.stage
        × spec.IsGiven L.start p.told p.stage × spec.IsTimed ⟦<D as Disk>⟧ L.start p.told p.stage };
}

impl<D: Disk, L: Life> Publisher<D, L> {
    /// A publisher of nothing yet, which shows the state that the run's store was opened with, and the token of that start. Refused as
    /// out of memory alone.
    pub fn new(
        alloc: Global,
        opened: Opened,
        state: &State,
    ) -> Result<(Publisher<D, L>, Told<D, L>, Order<L>), AllocError>
        requires book { opened ≡ L.book }
        requires start { state.now ≡ L.start }
        ensures publisher { IfOk result (λ made. made.0 ≡ record { told = []; unpublished = []; moments = [] }) }
        ensures told { IfOk result (λ made. made.1 ≡ []) }
        ensures order { IfOk result (λ made. made.2 ≡ []) }
    {
        let (log, told, order) = opened.named::<D, L>();
        let first = Shown {
            alloc,
            state: state.copy(alloc)?,
            published: told.prefix().copy(),
        };
        let second = Shown {
            alloc,
            state: state.copy(alloc)?,
            published: told.prefix().copy(),
        };
        let writer = Writer::new(alloc, first, second, VIEWERS)?;
        let start = told.copy();
        Ok((
            Publisher {
                writer,
                log,
                told,
                stage: Stage::Idle,
            },
            start,
            order,
        ))
    }

    /// Takes a batch that was committed, to be published next: the next part of the order, with a token of that. When its commit ended, the
    /// store held what it makes of what is published. The documents that its first commands leave may be given: those that are shown take
    /// them over, and aren't made again. It takes no memory.
    #[tactic(auto, using(crate::proofs::Ordering::moments_idle))]
    pub fn accept(&mut self, receipt: Receipt<D>, ordered: Ordered<L>, made: Vec<Document>)
        requires none { self.old.unpublished ≡ [] }
        requires next { IsNext (commands_of self.old.told) receipt.batch (takens ordered) }
        requires made { AreMade (fold L.start (commands_of self.old.told)) receipt.batch made.items }
        requires moment { IsMomentOf (fold L.start (commands_of (self.old.told ++ receipt.batch ∷ [])))
            (moment_of ⟦<D as Disk>⟧ receipt.at) }
        ensures { self.new ≡ record {
          told = self.old.told;
          unpublished = receipt.batch ∷ [];
          moments = self.old.moments ++ moment_of ⟦<D as Disk>⟧ receipt.at ∷ [];
        } }
    {
        self.stage = Stage::Held(receipt, ordered, made);
    }

    /// Whether a batch was given that isn't published yet.
    pub fn holds(&self) -> bool
        ensures { result ≡ nat_lt 0 (length self.now.unpublished) }
    {
        match &self.stage {
            Stage::Idle => false,
            Stage::Held(_, _, _) => true,
            Stage::Logged(_, _) => true,
            Stage::Queued(_, _) => true,
        }
    }

    /// The log of what is published, which nobody else has. The batch that was given may be in it already.
    pub fn log(&self) -> &Log<D, L>
        ensures batches { (result.now.batches ≡ self.now.told)
            ⊎ (result.now.batches ≡ self.now.told ++ self.now.unpublished) }
        ensures moments { IsPrefix result.now.moments self.now.moments }
    {
        &self.log
    }

    /// The token of what is published.
    pub fn told(&self) -> &Told<D, L>
        ensures { result.now ≡ self.now.told }
    {
        &self.told
    }

    /// The order, with what is published first, and then what was given to be published. It takes no memory.
    pub fn ordered(&self) -> Ordered<L>
        ensures { IsPrefix (commands_of (self.now.told ++ self.now.unpublished)) (takens result) }
    {
        match &self.stage {
            Stage::Idle => self.told.ordered(),
            Stage::Held(_, ordered, _) => ordered.copy(),
            Stage::Logged(_, next) => next.ordered(),
            Stage::Queued(_, next) => next.ordered(),
        }
    }

    /// Each token names a prefix of what is published, or of that with the batch that was given. It takes no memory.
    pub fn covers(&mut self, told: &Told<D, L>)
        ensures begins { IsPrefix told.now (self.old.told ++ self.old.unpublished) }
        ensures same { self.new ≡ self.old }
    {
        self.log.covers(told);
    }

    /// The moments of each token are a prefix of those of what is published and of the batch that was given. It takes no memory.
    pub fn covers_moments(&mut self, moments: &Moments<L>)
        ensures begins { IsPrefix moments.now self.old.moments }
        ensures same { self.new ≡ self.old }
    {
        self.log.covers_moments(moments);
    }

    /// What each publisher keeps, for the prover: there is one moment for each batch that is published, and for the one that was given, at
    /// which a store held exactly what the batches up to this one make of the start, and its device was synced. It does nothing.
    pub fn facts(&self)
        ensures { AreMoments L.start (self.now.told ++ self.now.unpublished) self.now.moments }
    {
        self.log.facts();
    }

    /// A viewer, which is told of what is published so far. `None` where 64 of them are there, or come and go while one is looked for.
    pub fn viewer(&self) -> Option<Viewer<D, L>>
        ensures { IfSome result (λ viewer. viewer ≡ self.now.told) }
    {
        match self.writer.factory().reader() {
            Ok(reader) => Some(Viewer::new(reader, self.told.copy())),
            Err(_) => None,
        }
    }

    /// Publishes the batch that was given, and gives its receipt with the token that ends with it; `None` where none was given.
    ///
    /// Refused as out of memory alone. Then nothing is published, the batch stays given, and the next call continues with it; it is put into
    /// the log once.
    pub fn publish<R: Wait>(
        &mut self,
        rt: &R,
        alloc: Global,
    ) -> Result<Option<(Receipt<D>, Told<D, L>)>, AllocError>
        ensures { Publishes self.old result self.new }
    {
        replace_with(self, (rt, alloc), published::<D, L, R>)
    }

    /// Ends the view: readers can't enter it any more. It waits for those that are reading.
    pub fn end<R: Wait>(self, rt: &R) {
        let Publisher {
            writer,
            log: _log,
            told: _told,
            stage: _stage,
        } = self;
        writer.take(rt);
    }
}

// continues from where the publishing of the batch has come to
fn published<D: Disk, L: Life, R: Wait>(
    publisher: Publisher<D, L>,
    with: (&R, Global),
) -> (
    Publisher<D, L>,
    Result<Option<(Receipt<D>, Told<D, L>)>, AllocError>,
)
    ensures { Publishes publisher result.1 result.0 }
{
    let (rt, alloc) = with;
    let Publisher {
        writer,
        mut log,
        told,
        stage,
    } = publisher;
    match stage {
        Stage::Idle => {
            let idle = Publisher {
                writer,
                log,
                told,
                stage: Stage::Idle,
            };
            (idle, Ok(None))
        }
        Stage::Held(receipt, ordered, made) => {
            let next = told.add(&mut log, &receipt, &ordered);
            queued(rt, writer, log, told, receipt, next, made)
        }
        Stage::Logged(receipt, next) => {
            queued(rt, writer, log, told, receipt, next, Vec::new(alloc))
        }
        Stage::Queued(receipt, next) => shown(rt, writer, log, told, receipt, next),
    }
}

// gives the batch to the writer, and shows it; without memory for it, the documents are dropped
fn queued<D: Disk, L: Life, R: Wait>(
    rt: &R,
    mut writer: Writer<Shown<L>, News<L>, (), InLog<L>>,
    log: Log<D, L>,
    told: Told<D, L>,
    receipt: Receipt<D>,
    next: Told<D, L>,
    made: Vec<Document>,
) -> (
    Publisher<D, L>,
    Result<Option<(Receipt<D>, Told<D, L>)>, AllocError>,
)
    requires shown { AreShown L.start told writer.desk.shown.value }
    requires waiting { drop writer.behind writer.log.items ≡ [] }
    requires next { next ≡ told ++ receipt.batch ∷ [] }
    requires made { AreMade (fold L.start (commands_of told)) receipt.batch made.items }
    requires log { log.batches ≡ next }
    ensures { ShowsNext told receipt next log.moments result.1 result.0 }
{
    if !appended(&mut writer, &receipt, &told, &next, made) {
        let logged = Publisher {
            writer,
            log,
            told,
            stage: Stage::Logged(receipt, next),
        };
        return (logged, Err(AllocError));
    }
    shown(rt, writer, log, told, receipt, next)
}

// gives the batch to the writer with the documents, and says whether there was memory for it
fn appended<D, L: Life>(
    writer: &mut Writer<Shown<L>, News<L>, (), InLog<L>>,
    receipt: &Receipt<D>,
    told: &Told<D, L>,
    next: &Told<D, L>,
    made: Vec<Document>,
) -> bool
    requires waiting { drop writer.old.behind writer.old.log.items ≡ [] }
    requires next { next.now ≡ told.now ++ receipt.now.batch ∷ [] }
    requires made { AreMade (fold L.start (commands_of told.now)) receipt.now.batch made.items }
    ensures desk { writer.new.desk ≡ writer.old.desk }
    ensures waiting { MatchBool result (drop writer.new.behind writer.new.log.items
        ≡ to_show receipt.now.batch next.now ∷ []) (drop writer.new.behind writer.new.log.items ≡ []) }
{
    match news_of(receipt, told, next, made) {
        Ok(news) => writer.append(news).is_ok(),
        Err(_) => false,
    }
}

// shows the batch that the writer has
fn shown<D: Disk, L: Life, R: Wait>(
    rt: &R,
    writer: Writer<Shown<L>, News<L>, (), InLog<L>>,
    log: Log<D, L>,
    told: Told<D, L>,
    receipt: Receipt<D>,
    next: Told<D, L>,
) -> (
    Publisher<D, L>,
    Result<Option<(Receipt<D>, Told<D, L>)>, AllocError>,
)
    requires shown { AreShown L.start told writer.desk.shown.value }
    requires waiting { drop writer.behind writer.log.items ≡ to_show receipt.batch next ∷ [] }
    requires next { next ≡ told ++ receipt.batch ∷ [] }
    requires log { log.batches ≡ next }
    ensures { ShowsNext told receipt next log.moments result.1 result.0 }
{
    let (writer, published) = writer.publish_as::<Sees<L>, R>(rt);
    match published {
        Ok(()) => {
            let token = next.copy();
            let idle = Publisher {
                writer,
                log,
                told: next,
                stage: Stage::Idle,
            };
            (idle, Ok(Some((receipt, token))))
        }
        Err(_) => {
            let queued = Publisher {
                writer,
                log,
                told,
                stage: Stage::Queued(receipt, next),
            };
            (queued, Err(AllocError))
        }
    }
}

// the batch of the receipt, shared, with the documents, as it is to be shown with what is then published
fn news_of<D, L: Life>(
    receipt: &Receipt<D>,
    told: &Told<D, L>,
    next: &Told<D, L>,
    made: Vec<Document>,
) -> Result<News<L>, AllocError>
    requires next { next.now ≡ told.now ++ receipt.now.batch ∷ [] }
    requires made { AreMade (fold L.start (commands_of told.now)) receipt.now.batch made.items }
    ensures news { IfOk result (λ news. news ≡ to_show receipt.now.batch next.now) }
{
    Ok(News {
        batch: receipt.batch().share()?,
        made,
        before: told.prefix().copy(),
        published: next.prefix().copy(),
    })
}
