//! The references, each under a number.
ghost use Rattle.std.specs.Prelude.{◌≡◌, ◌+◌, ◌-◌, ◌<◌, ◌^◌, ◌∷◌, false, map, length, None, IsSome, IfOk, OnOk, OnErr, option_map, slice_index_or};
ghost use Rattle.std.specs.List.{All};
ghost use Rattle.std.specs.Result.{result_err};
ghost use Rattle.napi_types.specs.declared.call.Call.TheVariants as call;
ghost use Rattle.napi_types.specs.plain.Lists.{has_number};
ghost use Rattle.napi_types.specs.parts.ReferenceRefusals.{reference_refusal};
ghost use Rattle.napi_types.specs.parts.References.{no_references, with_reference, without_reference, with_count, referred_value, reference_count, strong_values, emptied};
ghost use Rattle.napi_reference.specs.ReferencePlaces.{map_of, EachReferenceStandsOnce, strong_in};

use crate::rows::{self, ReferenceRow};
use generation_slab::GenerationSlab;
use napi_types::{NoMemory, RefId, Status, ValueId};
use std::alloc::Global;
use std::marker::Model;

/// References: a map from numbers to a value, or to none where it was collected, and a count. A reference stays until it is
/// deleted, and its number is never issued again.
#[derive(Drop)]
pub struct Refs {
    rows: GenerationSlab<ReferenceRow>,
}

impl Model for Refs {
    ghost use Rattle.napi_reference.specs.ReferencePlaces.{ReferencePlaces};

    ghost Value = { ReferencePlaces };

    ghost use Rattle.napi_reference.specs.ReferenceRows.{references_in};

    ghost view = { λ refs. references_in refs.rows };
}

impl Refs {
    /// No references.
    pub fn new(alloc: Global) -> Result<Refs, NoMemory>
        ensures { IfOk result (λ refs. map_of refs ≡ no_references) }
    {
        Ok(Refs {
            rows: GenerationSlab::new(alloc),
        })
    }

    /// No references, where a place is used `last + 1` times: no number has a generation after `last`.
    pub fn with_generations(alloc: Global, last: u16) -> Result<Refs, NoMemory>
        ensures { IfOk result (λ refs. map_of refs ≡ no_references) }
    {
        Ok(Refs {
            rows: GenerationSlab::with_generations(alloc, last),
        })
    }

    /// Makes a reference to a value: the manual's `napi_create_reference`. With the count 0 it is weak. Its number was never
    /// issued before, and is not 0. Fewer than 2^48 - 2 references were made before.
    ///
    /// Near constant time: now and then the places grow.
    pub fn make(&mut self, value: ValueId, count: u32) -> Result<RefId, NoMemory>
        requires { length self.old.issued + 2 < 2 ^ 48 }
        ensures fresh { IfOk result (λ id. has_number id.0 (0 ∷ self.old.issued) ≡ false) }
        ensures made { IfOk result (λ id. map_of self.new ≡ with_reference id.0 value.0 count (map_of self.old)) }
        ensures err { OnErr result (self.new ≡ self.old) }
    {
        let row = ReferenceRow {
            value: Some(value),
            count,
        };
        let number = self.rows.make(row)?;
        Ok(RefId(number))
    }

    /// Deletes a reference: the manual's `napi_delete_reference`. Refused with 1 where no reference has the number.
    ///
    /// Constant time. It takes no memory.
    pub fn delete(&mut self, id: RefId) -> Result<(), Status>
        ensures refusal { result_err result ≡ reference_refusal (map_of self.old) (call.DeleteReference id) }
        ensures deleted { OnOk result (map_of self.new ≡ without_reference id.0 (map_of self.old)) }
        ensures err { OnErr result (self.new ≡ self.old) }
    {
        rows::row_at(&self.rows, id.0).ok_or(Status::InvalidArg)?;
        self.rows.free(id.0);
        Ok(())
    }

    /// Counts a reference up, and answers with its new count: the manual's `napi_reference_ref`. Where its value was
    /// collected it answers 0, and changes nothing. Refused with 1 where no reference has the number, and with 9 where the
    /// value is there and the count is 4,294,967,295.
    ///
    /// Constant time. It takes no memory.
    pub fn add(&mut self, id: RefId) -> Result<u32, Status>
        ensures refusal { result_err result ≡ reference_refusal (map_of self.old) (call.ReferenceRef id) }
        ensures count { IsSome (referred_value (map_of self.old) id.0) → IfOk result (λ count. count ≡ reference_count (map_of self.old) id.0 + 1) }
        ensures counted { IsSome (referred_value (map_of self.old) id.0) → IfOk result (λ count. map_of self.new ≡ with_count id.0 count (map_of self.old)) }
        ensures gone { referred_value (map_of self.old) id.0 ≡ None → IfOk result (λ count. count ≡ 0) }
        ensures gone_stays { referred_value (map_of self.old) id.0 ≡ None → self.new ≡ self.old }
        ensures err { OnErr result (self.new ≡ self.old) }
    {
        let row = rows::row_at(&self.rows, id.0).ok_or(Status::InvalidArg)?;
        if row.value.is_none() {
            return Ok(0);
        }
        let count = row.count.checked_add(1).ok_or(Status::GenericFailure)?;
        self.rows.replace(id.0, ReferenceRow { count, ..row });
        Ok(count)
    }

    /// Counts a reference down, and answers with its new count: the manual's `napi_reference_unref`. Refused with 1 where no
    /// reference has the number, and with 9 where the count is 0.
    ///
    /// Constant time. It takes no memory.
    pub fn take(&mut self, id: RefId) -> Result<u32, Status>
        ensures refusal { result_err result ≡ reference_refusal (map_of self.old) (call.ReferenceUnref id) }
        ensures count { IfOk result (λ count. count ≡ reference_count (map_of self.old) id.0 - 1) }
        ensures counted { IfOk result (λ count. map_of self.new ≡ with_count id.0 count (map_of self.old)) }
        ensures err { OnErr result (self.new ≡ self.old) }
    {
        let row = rows::row_at(&self.rows, id.0).ok_or(Status::InvalidArg)?;
        let count = row.count.checked_sub(1).ok_or(Status::GenericFailure)?;
        self.rows.replace(id.0, ReferenceRow { count, ..row });
        Ok(count)
    }

    /// The value of a reference, `None` exactly where it was collected: the manual's `napi_get_reference_value`, before its
    /// handle is made. Refused with 1 where no reference has the number.
    ///
    /// Constant time. It takes no memory.
    pub fn value(&self, id: RefId) -> Result<Option<ValueId>, Status>
        ensures refusal { result_err result ≡ reference_refusal (map_of self.now) (call.GetReferenceValue id) }
        ensures value { IfOk result (λ value. option_map (λ v. v.0) value ≡ referred_value (map_of self.now) id.0) }
    {
        let row = rows::row_at(&self.rows, id.0).ok_or(Status::InvalidArg)?;
        Ok(row.value)
    }

    /// Takes their value from the references to these values, which are collected. No strong reference names one of them.
    ///
    /// It looks once whether the numbers of the values rise, and then at each place: in time logarithmic in how many values
    /// there are where they rise, else linear. It takes no memory.
    pub fn empty_of(&mut self, freed: &[ValueId])
        requires { All (λ v. has_number v (map (λ f. f.0) freed.now) ≡ false) (strong_values (map_of self.old)) }
        ensures emptied { map_of self.new ≡ emptied (λ v. has_number v (map (λ f. f.0) freed.now)) (map_of self.old) }
    {
        rows::empty_weak(&mut self.rows, freed);
    }

    /// How many places there are. Each reference stands at exactly one, whichever that is. Constant time.
    pub fn rows(&self) -> usize
        ensures places { result ≡ length self.now.places }
        ensures once { EachReferenceStandsOnce self.now }
    {
        self.rows.places()
    }

    /// The value of the strong reference at a place, `None` exactly where no reference stands there, or none with a value and a
    /// count above 0. `at` is below `rows`. Constant time.
    pub fn strong_at(&self, at: usize) -> Option<ValueId>
        requires { at < length self.now.places }
        ensures { option_map (λ v. v.0) result ≡ strong_in (slice_index_or self.now.places at None) }
    {
        rows::strong_value(self.rows.value_in(at).copied())
    }
}
