//! How a writer appends many values, or up to a size, and mends.
ghost use Rattle.std.specs.Prelude.{◌≡◌, ◌<◌, ◌≤◌, All, IfOk, IfErr, IsOkAnd, IsErrAnd, vec_len};
ghost use Rattle.claim_core.specs.Hand.{seen_size};
ghost use Rattle.cell_core.specs.Block.{IsMended};
ghost use Rattle.grow_core.specs.Vector.{IsOpenedAt, IsPlacedOf, SeesMore, limit_of};
ghost use Rattle.grow_core.specs.Growth.{WonRun, WonPlaces, Refuses, HasNoRoom, SaysFull, IsNotMoved};
ghost use Rattle.grow_core.specs.Making.{WonMade, WonClones, StopsAfter, IsRefusedBy};
ghost use Rattle.grow_core.specs.AtLeast.{WonAtLeast, RefusesAtLeast, SaysEnough};
ghost use Rattle.grow_core.specs.Logs.{AllFilled, LogsAtLeast, LogsGrowth, LogsMendRefusal, LogsNothing, LogsRefusal, LogsRefusalUpTo, LogsMend, IsFinishedIn};
ghost use Rattle.grow_core.specs.Mend.{IsMendDue, IsSeen, TellsValue, SaysFilled};

use crate::tie::Tie;
use crate::writer::Writer;
use grow_core::{AtLeast, GrowError, Grown, MendError, Never, Placed, Run};
use std::alloc::AllocError;
use std::sync::Wait;

impl<'a, T: Drop, B: Tie> Writer<'a, T, B> {
    /// Appends the values in one run. It tries once, and waits for nobody.
    pub fn try_grow_vec(&mut self, values: Vec<T>) -> Result<Grown<T>, GrowError<T, Vec<T>, Never>>
        ensures won { IfOk result
            (WonRun self.old.vector values.items self.old.hand self.new.hand) }
        ensures refused { IfErr result
            (Refuses self.old.vector (vec_len values) values self.old.hand self.new.hand) }
        // Room that is missing by what the hand has seen is reported before memory is asked for.
        ensures full { HasNoRoom self.old.vector (vec_len values) self.old.hand
            → IsErrAnd result SaysFull }
        // The history gets the claim of the run and what became of its places, or the event whose reply the
        // refusal is.
        ensures logs { IfOk result
            (λ grown. LogsGrowth AllFilled self.old.hand self.new.hand grown.run) }
        ensures logs_refusal { IfErr result
            (LogsRefusal (vec_len values) self.old.hand self.new.hand) }
        ensures vector { self.new.vector ≡ self.old.vector }
    {
        let vector = self.vector;
        vector.try_grow_vec(&mut self.hand, values)
    }

    /// Appends the values in one run, and retries if another caller was first.
    pub fn grow_vec<R: Wait>(
        &mut self,
        rt: &R,
        values: Vec<T>,
    ) -> Result<Grown<T>, GrowError<T, Vec<T>, Never>>
        ensures won { IfOk result
            (WonRun self.old.vector values.items self.old.hand self.new.hand) }
        ensures refused { IfErr result
            (Refuses self.old.vector (vec_len values) values self.old.hand self.new.hand) }
        // Room that is missing by what the hand has seen is reported before memory is asked for.
        ensures full { HasNoRoom self.old.vector (vec_len values) self.old.hand
            → IsErrAnd result SaysFull }
        ensures not_moved { IfErr result IsNotMoved }
        // The history gets the claim of the run and what became of its places, or the event whose reply the
        // refusal is.
        ensures logs { IfOk result
            (λ grown. LogsGrowth AllFilled self.old.hand self.new.hand grown.run) }
        ensures logs_refusal { IfErr result
            (LogsRefusal (vec_len values) self.old.hand self.new.hand) }
        ensures vector { self.new.vector ≡ self.old.vector }
    {
        let vector = self.vector;
        vector.grow_vec(rt, &mut self.hand, values)
    }

    /// Appends the values like `grow_vec`, without tokens.
    pub fn append<R: Wait>(
        &mut self,
        rt: &R,
        values: Vec<T>,
    ) -> Result<Run, GrowError<T, Vec<T>, Never>>
        ensures won { IfOk result (WonPlaces (vec_len values) self.old.hand self.new.hand) }
        ensures refused { IfErr result
            (Refuses self.old.vector (vec_len values) values self.old.hand self.new.hand) }
        // Room that is missing by what the hand has seen is reported before memory is asked for.
        ensures full { HasNoRoom self.old.vector (vec_len values) self.old.hand
            → IsErrAnd result SaysFull }
        ensures not_moved { IfErr result IsNotMoved }
        // The history gets the claim of the run and what became of its places, or the event whose reply the
        // refusal is.
        ensures logs { IfOk result
            (λ run. LogsGrowth AllFilled self.old.hand self.new.hand run) }
        ensures logs_refusal { IfErr result
            (LogsRefusal (vec_len values) self.old.hand self.new.hand) }
        ensures vector { self.new.vector ≡ self.old.vector }
    {
        let vector = self.vector;
        vector.append(rt, &mut self.hand, values)
    }

    /// Appends `n` values that `make` makes, in one run. `make` is called with 0, 1, 2 and so on once the run
    /// is won. After its first refusal it is not called again, and the places from there on are broken. It
    /// tries once, and waits for nobody.
    pub fn try_grow_with<E: Drop, F: FnMut(u64) -> Result<T, E>>(
        &mut self,
        n: u64,
        make: F,
    ) -> Result<Grown<T>, GrowError<T, (), E>>
        requires callable { F.IsAlwaysCallable make }
        ensures won { IfOk result
            (WonMade F.step make self.old.vector n self.old.hand self.new.hand) }
        ensures refused { IfErr result
            (Refuses self.old.vector n tt self.old.hand self.new.hand) }
        // The cause of a refused construction is what the maker returned after the values of `made`.
        ensures cause { IfErr result (IsRefusedBy (StopsAfter F.step make)) }
        // Room that is missing by what the hand has seen is reported before memory is asked for.
        ensures full { HasNoRoom self.old.vector n self.old.hand → IsErrAnd result SaysFull }
        // The history gets the claim of the run and what became of its places, or the event whose reply the
        // refusal is.
        ensures logs { IfOk result
            (λ grown. LogsGrowth AllFilled self.old.hand self.new.hand grown.run) }
        ensures logs_refusal { IfErr result
            (LogsRefusal n self.old.hand self.new.hand) }
        ensures vector { self.new.vector ≡ self.old.vector }
    {
        let vector = self.vector;
        vector.try_grow_with(&mut self.hand, n, make)
    }

    /// Appends values like `try_grow_with`, and retries if another caller was first.
    pub fn grow_with<R: Wait, E: Drop, F: FnMut(u64) -> Result<T, E>>(
        &mut self,
        rt: &R,
        n: u64,
        make: F,
    ) -> Result<Grown<T>, GrowError<T, (), E>>
        requires callable { F.IsAlwaysCallable make }
        ensures won { IfOk result
            (WonMade F.step make self.old.vector n self.old.hand self.new.hand) }
        ensures refused { IfErr result
            (Refuses self.old.vector n tt self.old.hand self.new.hand) }
        ensures cause { IfErr result (IsRefusedBy (StopsAfter F.step make)) }
        ensures full { HasNoRoom self.old.vector n self.old.hand → IsErrAnd result SaysFull }
        ensures not_moved { IfErr result IsNotMoved }
        // The history gets the claim of the run and what became of its places, or the event whose reply the
        // refusal is.
        ensures logs { IfOk result
            (λ grown. LogsGrowth AllFilled self.old.hand self.new.hand grown.run) }
        ensures logs_refusal { IfErr result
            (LogsRefusal n self.old.hand self.new.hand) }
        ensures vector { self.new.vector ≡ self.old.vector }
    {
        let vector = self.vector;
        vector.grow_with(rt, &mut self.hand, n, make)
    }

    /// Appends the fewest values that make the size at least `size`, in one run that `make` makes as in
    /// `try_grow_with`. If the size is large enough, nothing is appended and that size is returned. It waits
    /// for nobody, and never returns `Moved`.
    pub fn grow_to_at_least<E: Drop, F: FnMut(u64) -> Result<T, E>>(
        &mut self,
        size: u64,
        make: F,
    ) -> Result<AtLeast<T>, GrowError<T, (), E>>
        requires callable { F.IsAlwaysCallable make }
        ensures won { IfOk result
            (WonAtLeast F.step make self.old.vector size self.old.hand self.new.hand) }
        ensures refused { IfErr result
            (RefusesAtLeast self.old.vector size self.old.hand self.new.hand) }
        ensures cause { IfErr result (IsRefusedBy (StopsAfter F.step make)) }
        // The hand's size or the limit decides before memory is asked for.
        ensures enough { size ≤ seen_size self.old.hand → IsOkAnd result SaysEnough }
        ensures full { limit_of self.old.vector < size → IsErrAnd result SaysFull }
        // The history gets the claim of the run up to the size, or the event whose reply the refusal is.
        ensures logs { IfOk result (LogsAtLeast size self.old.hand self.new.hand) }
        ensures logs_refusal { IfErr result
            (LogsRefusalUpTo size self.old.hand self.new.hand) }
        ensures vector { self.new.vector ≡ self.old.vector }
    {
        let vector = self.vector;
        vector.grow_to_at_least(&mut self.hand, size, make)
    }
}

impl<'a, T: Clone, B: Tie> Writer<'a, T, B> {
    /// Appends `n` clones of the value in one run, each made once the run is won. A clone that finds no memory
    /// is a refused construction: the places from there on are broken. It tries once, and waits for nobody.
    pub fn try_grow_by(
        &mut self,
        n: u64,
        value: &T,
    ) -> Result<Grown<T>, GrowError<T, (), AllocError>>
        ensures won { IfOk result
            (WonClones T.is_clone value.now self.old.vector n self.old.hand self.new.hand) }
        ensures refused { IfErr result
            (Refuses self.old.vector n tt self.old.hand self.new.hand) }
        ensures made { IfErr result (IsRefusedBy (λ values _. All (T.is_clone value.now) values)) }
        ensures full { HasNoRoom self.old.vector n self.old.hand → IsErrAnd result SaysFull }
        // The history gets the claim of the run and what became of its places, or the event whose reply the
        // refusal is.
        ensures logs { IfOk result
            (λ grown. LogsGrowth AllFilled self.old.hand self.new.hand grown.run) }
        ensures logs_refusal { IfErr result
            (LogsRefusal n self.old.hand self.new.hand) }
        ensures vector { self.new.vector ≡ self.old.vector }
    {
        let vector = self.vector;
        vector.try_grow_by(&mut self.hand, n, value)
    }

    /// Appends clones like `try_grow_by`, and retries if another caller was first.
    pub fn grow_by<R: Wait>(
        &mut self,
        rt: &R,
        n: u64,
        value: &T,
    ) -> Result<Grown<T>, GrowError<T, (), AllocError>>
        ensures won { IfOk result
            (WonClones T.is_clone value.now self.old.vector n self.old.hand self.new.hand) }
        ensures refused { IfErr result
            (Refuses self.old.vector n tt self.old.hand self.new.hand) }
        ensures made { IfErr result (IsRefusedBy (λ values _. All (T.is_clone value.now) values)) }
        ensures full { HasNoRoom self.old.vector n self.old.hand → IsErrAnd result SaysFull }
        ensures not_moved { IfErr result IsNotMoved }
        // The history gets the claim of the run and what became of its places, or the event whose reply the
        // refusal is.
        ensures logs { IfOk result
            (λ grown. LogsGrowth AllFilled self.old.hand self.new.hand grown.run) }
        ensures logs_refusal { IfErr result
            (LogsRefusal n self.old.hand self.new.hand) }
        ensures vector { self.new.vector ≡ self.old.vector }
    {
        let vector = self.vector;
        vector.grow_by(rt, &mut self.hand, n, value)
    }
}

impl<'a, T, B: Tie> Writer<'a, T, B> {
    /// Fills a broken place. It waits for nobody, and takes no memory.
    pub fn mend(&mut self, place: u64, value: T) -> Result<Placed<T>, (MendError<T>, T)>
        ensures token { IfOk result (IsPlacedOf self.old.vector) }
        ensures here { IfOk result (λ placed. placed.place ≡ place) }
        ensures value { IfOk result (λ placed. placed.value ≡ value) }
        // The step found the place broken.
        ensures mended { IfOk result (λ placed. IsMended placed.cell) }
        ensures below { IfOk result (λ _. place < seen_size self.new.hand) }
        ensures refused { IfErr result
            (λ (error, _). IsMendDue self.old.vector place self.old.hand self.new.hand error) }
        ensures value_back { IfErr result (λ (_, back). back ≡ value) }
        // A value of the opened list is found by everybody.
        ensures opened { (x : T) → IsOpenedAt self.old.vector place x
            → IsErrAnd result (λ (error, _). TellsValue x error) }
        // A place that was claimed stays claimed.
        ensures in_range { place < seen_size self.old.hand
            → IfErr result (λ (error, _). IsSeen error) }
        ensures hand { SeesMore self.old.hand self.new.hand }
        // The history gets the look at a place that is not below the size.
        ensures logs { IfOk result (λ _. LogsNothing self.old.hand self.new.hand) }
        ensures logs_refusal { IfErr result
            (λ (error, _). LogsMendRefusal place self.old.hand self.new.hand error) }
        // It gets the mend and its fill, or the look that found the place pending or filled.
        ensures mends { LogsMend self.old.vector place self.old.hand self.new.hand result }
        // A caller that has seen the place filled in the history finds it filled.
        ensures finished { IsFinishedIn self.old.hand.log place
            → IsErrAnd result (λ (error, _). SaysFilled error) }
        ensures vector { self.new.vector ≡ self.old.vector }
    {
        let vector = self.vector;
        vector.mend(&mut self.hand, place, value)
    }
}
