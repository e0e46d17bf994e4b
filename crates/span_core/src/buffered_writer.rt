//! A writer that appends many values at once.
ghost use Rattle.std.specs.Prelude.{◌≡◌, ◌<◌, ◌≤◌, [], IfOk, IfErr, OnOk, IsErrAnd, length, vec_len, ◌⊎◌};
ghost use Rattle.grow_core.specs.Growth.{WonRun, Refuses, HasNoRoom, SaysFull, IsNotMoved};
ghost use Rattle.grow_core.specs.Logs.{AllFilled, LogsGrowth, LogsRefusal};
ghost use Rattle.span_core.specs.Writer.{with_hand};
ghost use Rattle.span_core.specs.Buffered.{Pushes, LeavesBuffer, RefusesPush, IsOutOfMemory, LogsFlush};

use crate::tie::{Tie, Untied};
use crate::writer::Writer;
use grow_core::{GrowError, Grown, Never};
use std::alloc::Global;
use std::marker::Model;
use std::mem;
use std::sync::Wait;

/// A writer with a buffer: a push to a full buffer first appends what is buffered, in one run.
///
/// If it is dropped, the buffered values are dropped, and the shares of its hand are lost. `flush` appends the
/// values, and `into_parts` returns them. The buffer takes memory for `bound` values, which each run frees and
/// the next push asks for again.
#[derive(Drop)]
pub struct BufferedWriter<'a, T, B: Tie = Untied> {
    writer: Writer<'a, T, B>,
    buffer: Vec<T>,
    bound: usize,
    alloc: Global,
}

impl<'a, T, B: Tie> Model for BufferedWriter<'a, T, B> {
    ghost use Rattle.std.specs.Prelude.{◌<◌, ◌≤◌, vec_len};
    ghost use Rattle.span_core.specs.Buffered.{BufferedView, buffered_coded};

    ghost Value = { BufferedView T };

    ghost coded = { buffered_coded T.code };

    ghost view = { λ b. record { writer = b.writer; buffered = b.buffer.items; bound = b.bound } };

    ghost invariant = { λ b. (0 < b.bound) × (vec_len b.buffer ≤ b.bound) };
}

impl<'a, T, B: Tie> BufferedWriter<'a, T, B> {
    /// Makes a writer that buffers up to `bound` values. It takes no memory yet.
    pub fn new(alloc: Global, writer: Writer<'a, T, B>, bound: usize) -> Self
        requires { 0 < bound }
        ensures { result ≡ record { writer = writer.entry; buffered = []; bound = bound } }
    {
        BufferedWriter {
            writer,
            buffer: Vec::new(alloc),
            bound,
            alloc,
        }
    }

    /// Returns the values that are not appended yet, in order.
    pub fn buffered(&self) -> &[T]
        ensures value { result.now ≡ self.now.buffered }
        ensures within { length result.now ≤ self.now.bound }
    {
        self.buffer.as_slice()
    }

    /// Returns how many values the buffer may hold.
    pub fn bound(&self) -> usize
        ensures value { result ≡ self.now.bound }
        ensures some { 0 < result }
    {
        self.bound
    }

    /// Returns the writer, to read the vector and what the hand has seen.
    pub fn writer(&self) -> &Writer<'a, T, B>
        ensures { result.now ≡ self.now.writer }
    {
        &self.writer
    }

    /// Returns the writer, and the values that are not appended yet, in order.
    pub fn into_parts(self) -> (Writer<'a, T, B>, Vec<T>)
        ensures writer { result.0 ≡ self.entry.writer }
        ensures buffered { result.1.items ≡ self.entry.buffered }
    {
        let BufferedWriter {
            writer,
            buffer,
            bound: _,
            alloc: _,
        } = self;
        (writer, buffer)
    }

    /// Returns the writer, if everything is appended.
    pub fn into_writer(self) -> Writer<'a, T, B>
        requires flushed { self.buffered ≡ [] }
        ensures value { result ≡ self.entry.writer }
    {
        let (writer, buffer) = self.into_parts();
        buffer.destroy_empty();
        writer
    }
}

impl<'a, T: Drop, B: Tie> BufferedWriter<'a, T, B> {
    /// Appends what is buffered, in one run, and returns its token. It retries if another caller was first. A
    /// refusal that claims nothing leaves the buffer as it was.
    pub fn flush<R: Wait>(&mut self, rt: &R) -> Result<Grown<T>, GrowError<T, (), Never>>
        ensures won { IfOk result (WonRun self.old.writer.vector self.old.buffered
            self.old.writer.hand self.new.writer.hand) }
        ensures flushed { OnOk result (self.new.buffered ≡ []) }
        ensures refused { IfErr result (Refuses self.old.writer.vector (length self.old.buffered)
            tt self.old.writer.hand self.new.writer.hand) }
        ensures left { IfErr result (LeavesBuffer self.old.buffered self.new.buffered) }
        // Room that is missing by what the hand has seen is reported before memory is asked for.
        ensures full { HasNoRoom self.old.writer.vector (length self.old.buffered)
            self.old.writer.hand → IsErrAnd result SaysFull }
        ensures not_moved { IfErr result IsNotMoved }
        // The history gets the claim of the run and what became of its places, or the event whose reply the
        // refusal is.
        ensures logs { IfOk result
            (λ grown. LogsGrowth AllFilled
            self.old.writer.hand self.new.writer.hand grown.run) }
        ensures logs_refusal { IfErr result
            (LogsRefusal (length self.old.buffered)
            self.old.writer.hand self.new.writer.hand) }
        ensures rest_kept { self.new ≡ record self.old {
          buffered = self.new.buffered;
          writer = with_hand self.old.writer self.new.writer.hand;
        } }
    {
        let room = Vec::new(self.alloc);
        append_all(rt, &mut self.writer, &mut self.buffer, room)
    }

    /// Puts the value behind those that are buffered. If the buffer is full, they are appended first, in one
    /// run, whose token is returned; it retries if another caller was first. A refusal that claims nothing
    /// leaves the buffer as it was.
    #[inline(always)]
    pub fn push<R: Wait>(
        &mut self,
        rt: &R,
        value: T,
    ) -> Result<Option<Grown<T>>, (GrowError<T, (), Never>, T)>
        ensures pushed { IfOk result (Pushes self.old self.new value) }
        ensures refused { IfErr result (λ (error, _). RefusesPush self.old self.new error) }
        ensures left { IfErr result (λ (error, _).
            LeavesBuffer self.old.buffered self.new.buffered error) }
        ensures value_back { IfErr result (λ (_, back). back ≡ value) }
        // Below the bound nothing is appended, and only the buffer takes memory.
        ensures room { length self.old.buffered < self.old.bound
            → IfErr result (λ (error, _). IsOutOfMemory error) }
        ensures not_moved { IfErr result (λ (error, _). IsNotMoved error) }
        // The history gets what a growth by the buffered values adds, or nothing if only the buffer was asked.
        ensures logs { IfOk result (LogsFlush self.old.writer self.new.writer) }
        ensures logs_refusal { IfErr result (λ (error, _).
            (self.new.writer.hand ≡ self.old.writer.hand)
            ⊎ LogsRefusal (length self.old.buffered)
            self.old.writer.hand self.new.writer.hand error) }
        ensures rest_kept { self.new ≡ record self.old {
          buffered = self.new.buffered;
          writer = with_hand self.old.writer self.new.writer.hand;
        } }
    {
        let len = self.buffer.len();
        if len < self.bound && len < self.buffer.capacity() {
            self.buffer.push_reserved(value);
            return Ok(None);
        }
        self.push_by_call(rt, value)
    }

    // The same by a call, so that only a push that finds room is laid into its callers.
    #[cold]
    #[inline(never)]
    fn push_by_call<R: Wait>(
        &mut self,
        rt: &R,
        value: T,
    ) -> Result<Option<Grown<T>>, (GrowError<T, (), Never>, T)>
        ensures pushed { IfOk result (Pushes self.old self.new value) }
        ensures refused { IfErr result (λ (error, _). RefusesPush self.old self.new error) }
        ensures left { IfErr result (λ (error, _).
            LeavesBuffer self.old.buffered self.new.buffered error) }
        ensures value_back { IfErr result (λ (_, back). back ≡ value) }
        ensures room { length self.old.buffered < self.old.bound
            → IfErr result (λ (error, _). IsOutOfMemory error) }
        ensures not_moved { IfErr result (λ (error, _). IsNotMoved error) }
        // The history gets what a growth by the buffered values adds, or nothing if only the buffer was asked.
        ensures logs { IfOk result (LogsFlush self.old.writer self.new.writer) }
        ensures logs_refusal { IfErr result (λ (error, _).
            (self.new.writer.hand ≡ self.old.writer.hand)
            ⊎ LogsRefusal (length self.old.buffered)
            self.old.writer.hand self.new.writer.hand error) }
        ensures rest_kept { self.new ≡ record self.old {
          buffered = self.new.buffered;
          writer = with_hand self.old.writer self.new.writer.hand;
        } }
    {
        let len = self.buffer.len();
        if len < self.bound {
            if self.buffer.reserve_exact(self.bound - len).is_err() {
                return Err((GrowError::NoMemory { back: () }, value));
            }
            self.buffer.push_reserved(value);
            return Ok(None);
        }
        let Ok(room) = Vec::with_capacity(self.alloc, self.bound) else {
            return Err((GrowError::NoMemory { back: () }, value));
        };
        match append_all(rt, &mut self.writer, &mut self.buffer, room) {
            Ok(grown) => {
                self.buffer.push_reserved(value);
                Ok(Some(grown))
            }
            Err(refused) => Err((refused, value)),
        }
    }
}

// Appends what is buffered, in one run. The next values then go into this room; if nothing was claimed, those
// that were buffered are there again.
fn append_all<T: Drop, B: Tie, R: Wait>(
    rt: &R,
    writer: &mut Writer<'_, T, B>,
    buffer: &mut Vec<T>,
    room: Vec<T>,
) -> Result<Grown<T>, GrowError<T, (), Never>>
    requires empty { vec_len room ≡ 0 }
    ensures won { IfOk result
        (WonRun writer.old.vector buffer.old.items writer.old.hand writer.new.hand) }
    ensures room { OnOk result (buffer.new ≡ room) }
    ensures refused { IfErr result (Refuses writer.old.vector (vec_len buffer.old) tt
        writer.old.hand writer.new.hand) }
    ensures left { IfErr result (LeavesBuffer buffer.old.items buffer.new.items) }
    ensures few { vec_len buffer.new ≤ vec_len buffer.old }
    ensures full { HasNoRoom writer.old.vector (vec_len buffer.old) writer.old.hand
        → IsErrAnd result SaysFull }
    ensures not_moved { IfErr result IsNotMoved }
    ensures logs { IfOk result
        (λ grown. LogsGrowth AllFilled
        writer.old.hand writer.new.hand grown.run) }
    ensures logs_refusal { IfErr result
        (LogsRefusal (vec_len buffer.old) writer.old.hand writer.new.hand) }
    ensures vector { writer.new.vector ≡ writer.old.vector }
{
    let values = mem::replace(buffer, room);
    match writer.grow_vec(rt, values) {
        Ok(grown) => Ok(grown),
        Err(GrowError::NoMemory { back }) => {
            *buffer = back;
            Err(GrowError::NoMemory { back: () })
        }
        Err(GrowError::Full { size, back }) => {
            *buffer = back;
            Err(GrowError::Full { size, back: () })
        }
        Err(GrowError::Taken { place, found }) => Err(GrowError::Taken { place, found }),
        Err(GrowError::Moved { .. }) => unreachable!(),
        Err(GrowError::Refused { cause, .. }) => match cause {},
    }
}
