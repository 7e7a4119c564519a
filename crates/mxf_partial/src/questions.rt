//! What wanted units ask for, by how they stand.
ghost use Rattle.std.specs.Prelude.{◌≡◌, ◌++◌, ◌+◌, ◌≤◌, ◌∷◌, [], IfOk, OnOk};
ghost use Rattle.std.specs.List.{filter_map};
ghost use Rattle.mxf_views.specs.Rises.{RiseBy};
ghost use Rattle.mxf_units.specs.Ranges.{units_from};
ghost use Rattle.mxf_units.specs.Units.{UnitsParts, unit_of};
ghost use Rattle.mxf_partial.specs.Questions.{IsPlaced, asked_by, asked_unsure, both, run_from, unnamed_run};

use crate::named::is_named;
use crate::wanted::{reach_of, run_of_extent};
use mxf_catalogue::Run;
use mxf_klv::OutOfMemory;
use mxf_restore::NamedPlace;
use mxf_units::{EditUnit, Extent, Location, PlacedUnit, UnitStanding, Units};
use mxf_views::StreamPlace;
use std::alloc::Global;
use std::marker::Model;

/// The bytes that are wanted of a unit before which an unknown partition may lie, unless a pack names the limit of its
/// essence zone.
#[derive(Clone, Copy)]
pub(crate) struct UnsureRun {
    /// The limit, in bytes, if it is known.
    limit: Option<u64>,
    run: Run,
}

/// Wanted units, and what they ask for, by how they stand. Each unit is looked up once.
pub(crate) struct Questions {
    units: Vec<EditUnit>,
    partitions: Vec<StreamPlace>,
    ways: Vec<StreamPlace>,
    limits: Vec<u64>,
    unindexed: Vec<u64>,
    runs: Vec<Run>,
    unsure: Vec<UnsureRun>,
}

// Written out, a drop is one call wherever questions are let go.
impl Drop for Questions {
    fn drop(self) {
        let Questions {
            units: _units,
            partitions: _partitions,
            ways: _ways,
            limits: _limits,
            unindexed: _unindexed,
            runs: _runs,
            unsure: _unsure,
        } = self;
    }
}

impl Model for Questions {
    ghost use Rattle.mxf_partial.specs.Questions.{QuestionParts};

    ghost Value = { QuestionParts };

    ghost view = { λ q. record {
      units = q.units.items;
      partitions = q.partitions.items;
      ways = q.ways.items;
      limits = q.limits.items;
      unindexed = q.unindexed.items;
      runs = q.runs.items;
      unsure = q.unsure.items;
    } };
}

impl Questions {
    /// So many units from one on, and what they ask for. They take memory.
    pub(crate) fn of(
        alloc: Global,
        units: &Units<'_>,
        first: u64,
        count: u64,
    ) -> Result<Questions, OutOfMemory>
        requires { first + count ≤ 9223372036854775808 }
        ensures { IfOk result (λ q. q ≡ asked_by units.now (units_from units.now first count)) }
    {
        let mut asked = Questions::with_room(alloc, count as usize)?;
        for number in first..first + count {
            asked.add(units, number)?;
        }
        Ok(asked)
    }

    /// No units, with room for so many.
    pub(crate) fn with_room(alloc: Global, count: usize) -> Result<Questions, OutOfMemory>
        ensures { IfOk result (λ q. (u : UnitsParts) → q ≡ asked_by u []) }
    {
        Ok(Questions {
            units: Vec::with_capacity(alloc, count)?,
            partitions: Vec::new(alloc),
            ways: Vec::new(alloc),
            limits: Vec::new(alloc),
            unindexed: Vec::new(alloc),
            runs: Vec::new(alloc),
            unsure: Vec::new(alloc),
        })
    }

    /// Adds a unit, and what it asks for.
    pub(crate) fn add(&mut self, units: &Units<'_>, number: u64) -> Result<(), OutOfMemory>
        ensures { OnOk result (self.new
            ≡ both self.old (asked_by units.now (unit_of units.now.known units.now.index_sid number ∷ []))) }
    {
        self.add_placed(units.placed(number))
    }

    /// The same of a unit that was looked up.
    fn add_placed(&mut self, placed: PlacedUnit) -> Result<(), OutOfMemory>
        ensures { (u : UnitsParts) → IsPlaced u placed
            → OnOk result (self.new ≡ both self.old (asked_by u (placed.unit ∷ []))) }
    {
        self.units.push(placed.unit)?;
        match placed.unit.standing {
            UnitStanding::NoPartition | UnitStanding::Elsewhere => {
                if let Ok(place) = placed.place {
                    self.partitions.push(place)?;
                }
            }
            UnitStanding::Several | UnitStanding::Unknown => {
                if let Ok(place) = placed.place {
                    self.ways.push(place)?;
                }
            }
            UnitStanding::Unsure => {
                if let Ok(location) = placed.location {
                    self.add_unsure(location)?;
                }
            }
            UnitStanding::NotIndexed => self.unindexed.push(placed.unit.number)?,
            UnitStanding::Missing | UnitStanding::Part => {
                if let Ok(location) = placed.location {
                    self.runs.push(run_from(location.extent.start, location))?;
                }
            }
            _ => {}
        }
        Ok(())
    }

    /// Adds what a unit asks for before which an unknown partition may lie.
    fn add_unsure(&mut self, location: Location) -> Result<(), OutOfMemory>
        ensures { OnOk result (self.new ≡ both self.old (asked_unsure location)) }
    {
        let limit = location.zone.limit;
        if let Some(limit) = limit {
            self.limits.push(limit)?;
        }
        let run = run_from(u128::from(location.zone.origin), location);
        self.unsure.push(UnsureRun { limit, run })?;
        Ok(())
    }

    /// Adds others, and what they ask for.
    pub(crate) fn append(&mut self, others: &Questions) -> Result<(), OutOfMemory>
        ensures { OnOk result (self.new ≡ both self.old others.now) }
    {
        self.units.extend_from_slice(&others.units)?;
        self.partitions.extend_from_slice(&others.partitions)?;
        self.ways.extend_from_slice(&others.ways)?;
        self.limits.extend_from_slice(&others.limits)?;
        self.unindexed.extend_from_slice(&others.unindexed)?;
        self.runs.extend_from_slice(&others.runs)?;
        self.unsure.extend_from_slice(&others.unsure)?;
        Ok(())
    }

    /// The units.
    pub(crate) fn units(&self) -> &[EditUnit]
        ensures { result.now ≡ self.now.units }
    {
        &self.units
    }

    /// The places of the units whose partition isn't held, or not known to be.
    pub(crate) fn partitions(&self) -> &[StreamPlace]
        ensures { result.now ≡ self.now.partitions }
    {
        &self.partitions
    }

    /// The places of the units whose partition has no first packet of essence, as far as is known.
    pub(crate) fn ways(&self) -> &[StreamPlace]
        ensures { result.now ≡ self.now.ways }
    {
        &self.ways
    }

    /// The limits of the essence zones, in bytes, below which an unknown partition may lie.
    pub(crate) fn limits(&self) -> &[u64]
        ensures { result.now ≡ self.now.limits }
    {
        &self.limits
    }

    /// The numbers of the units to which no segment gives a place.
    pub(crate) fn unindexed(&self) -> &[u64]
        ensures { result.now ≡ self.now.unindexed }
    {
        &self.unindexed
    }

    /// The runs of the bytes that are wanted of units, as far as files reach. They take memory.
    pub(crate) fn wanted_runs(
        &self,
        alloc: Global,
        named: &[NamedPlace],
    ) -> Result<Vec<Run>, OutOfMemory>
        requires { RiseBy (λ n. n.place) named.now }
        ensures { IfOk result (λ v. v.items ≡ self.now.runs ++ filter_map (unnamed_run named.now) self.now.unsure) }
    {
        let mut runs = Vec::new(alloc);
        runs.extend_from_slice(&self.runs)?;
        add_unnamed(&mut runs, &self.unsure, named)?;
        Ok(runs)
    }
}

/// From a file offset up to where the bytes of a unit may reach.
fn run_from(start: u128, location: Location) -> Run
    ensures { result ≡ run_from start location }
{
    run_of_extent(Extent {
        start,
        end: reach_of(location),
    })
}

/// Adds the runs of unsure units, but for those whose limit a pack names.
fn add_unnamed(
    runs: &mut Vec<Run>,
    unsure: &[UnsureRun],
    named: &[NamedPlace],
) -> Result<(), OutOfMemory>
    requires { RiseBy (λ n. n.place) named.now }
    ensures { OnOk result (runs.new.items ≡ runs.old.items ++ filter_map (unnamed_run named.now) unsure.now) }
{
    let unnamed = unsure
        .iter()
        .filter_map(|unsure| unnamed_run(named, unsure));
    Ok(runs.extend(unnamed)?)
}

/// The run of an unsure unit, unless a pack names the limit of its essence zone, and what begins there isn't held whole.
fn unnamed_run(named: &[NamedPlace], unsure: &UnsureRun) -> Option<Run>
    requires { RiseBy (λ n. n.place) named.now }
    ensures { result ≡ unnamed_run named.now unsure.now }
{
    match unsure.limit {
        Some(limit) if is_named(named, limit) => None,
        _ => Some(unsure.run),
    }
}
