// What becomes of a plan by a line.
ghost use Rattle.std.specs.Prelude.{ℕ, ◌+◌, ◌*◌, ◌<◌, ◌≤◌, ◌≡◌, Some, List, [], ◌∷◌, cond, eqb, length, map, ltb, IfOk};
ghost use Rattle.scenario.specs.Reading.{most_bytes, set_up_bytes, station_bytes, arrival_bytes, run_bytes};
ghost use Rattle.rules.specs.Bus.{code};
ghost use Rattle.rules.specs.Lists.{first_of};
ghost use Rattle.layout.specs.declared.stages.Stage.TheVariants.{BeforeBus, InStations};
ghost use Rattle.layout.specs.declared.labels.Kind.TheVariants.{Bus, Station};
ghost use Rattle.layout.specs.Layout.{place_fault, bus_fault, arrival_tests, attempt_tests, arrivals_tests, with_arrivals, arrival_of, take_bus, take_station, take_arrival, take_attempt, take_arrivals, take_run, take_said, take_kind, take_line, discipline_named, fields_in, labels_of, bus_line, station_line, value_fits, after_run};
ghost use Rattle.words.specs.Words.{first_word, after_word};
ghost use Rattle.layout.specs.Layout.{start as startSaid};
ghost use Rattle.layout.specs.Faults.{kind_in, kind_number, fault_in};
ghost use Rattle.layout.specs.Parts.{padded, plan_of, taken_of};

use crate::arrivals::{self, Repeated};
use crate::faults::{self, Fault};
use crate::fields;
use crate::labels::{self, Kind};
use crate::plan::Plan;
use crate::stages::{self, Stage};
use rules::{Discipline, Refusal, Slot};
use sorts::{Address, Capability, disciplines};
use state::{Arrival, Listed, Row, Settings, zeros};

const MOST_STATIONS: usize = 64;

// The bytes of a scenario.
const MOST_BYTES: usize = 65_536;

// The largest number of a field of two bytes.
const LARGEST: u32 = 65_535;

// The number of a discipline.
fn number_of(discipline: Discipline) -> u32
    ensures value { result ≡ code discipline }
    ensures upper_bound { result < 3 }
{
    discipline as u32
}

// 2 to 5, as if there were a station.
fn bus_refused(settings: Settings) -> Result<(), Fault>
    ensures { fault_in result ≡ bus_fault settings }
{
    faults::unless_refused(state::settings_refusal(Settings { n: 1, ..settings }))
}

// Whether a scenario of n stations and so many arrivals is too long.
fn too_long(n: usize, arrivals: usize) -> bool
    requires n_bound { n ≤ 64 }
    requires arrivals_bound { arrivals ≤ 8_589_934_592 }
    ensures { result ≡ ltb most_bytes (set_up_bytes + station_bytes * n + arrival_bytes * arrivals + run_bytes) }
{
    16 + 8 * n + 16 * arrivals + 6 > MOST_BYTES
}

impl Plan {
    // Before the first line.
    pub fn start() -> Plan
        ensures { plan_of result ≡ startSaid }
    {
        Plan {
            stage: Stage::BeforeBus,
            settings: Settings {
                discipline: 0,
                d: 0,
                a: 0,
                q: 0,
                n: 0,
            },
            stations: [zeros::NOBODY; 64],
            arrivals: [zeros::NO_ARRIVAL; 4096],
            count: 0,
            steps: 0,
        }
    }

    // The discipline that the bus line named.
    fn discipline(&self) -> Discipline
        ensures { code result ≡ self.now.settings.discipline }
    {
        Discipline::from(self.settings.discipline)
    }

    // A bus line after its first word: the discipline, and its words and numbers.
    fn take_bus(&mut self, line: &[u8]) -> Result<(), Fault>
        requires { self.old.stage ≡ BeforeBus }
        ensures { taken_of result self.new ≡ take_bus (plan_of self.old) (discipline_named (first_word line.now)) (fields_in (labels_of bus_line 0) (after_word line.now)) }
    {
        let (word, rest) = fields::parted(line);
        let Some(discipline) = labels::discipline_named(word) else {
            return Err(Fault::Engine(Refusal::Discipline));
        };
        let [d, a, q, ..] = fields::fields_in(rest, labels::labels_of(Kind::Bus, Discipline::PRI))?;
        let settings = Settings {
            discipline: number_of(discipline),
            d,
            a,
            q,
            n: 0,
        };
        bus_refused(settings)?;
        self.stage = Stage::InStations;
        self.settings = settings;
        Ok(())
    }

    // A station.
    fn take_station(&mut self, address: u32, capability: u32) -> Result<(), Fault>
        requires stage_value { self.old.stage ≡ InStations }
        ensures { taken_of result self.new ≡ take_station (plan_of self.old) (record { address = address; capability = capability }) }
    {
        let n = self.settings.n;
        if n >= MOST_STATIONS {
            return Err(Fault::Engine(Refusal::StationCount));
        }
        let mut stations = self.stations;
        stations[n] = Listed {
            address: Address(address),
            capability: Capability(capability),
        };
        let settings = Settings {
            n: n + 1,
            ..self.settings
        };
        let set = state::set_up(
            settings,
            Row {
                stations,
                length: n + 1,
            },
        );
        faults::unless_refused(set.verdict.refusal)?;
        self.settings = settings;
        self.stations = stations;
        Ok(())
    }

    // What refuses so many arrivals more with this address, largest value and length.
    fn arrivals_refused(
        &self,
        address: u32,
        value: u64,
        length: u32,
        more: usize,
    ) -> Result<(), Fault>
        requires { more ≤ 4_294_967_296 }
        ensures { fault_in result ≡ first_of 0 (arrival_tests (plan_of self.now) address value length more) }
    {
        if address > LARGEST {
            return Err(Fault::AddressLarge);
        }
        if !self.value_fits(value) {
            return Err(Fault::Engine(Refusal::ValueRange));
        }
        if !disciplines::length_fits(length) {
            return Err(Fault::Engine(Refusal::LengthRange));
        }
        if too_long(self.settings.n, self.count + more) {
            return Err(Fault::Engine(Refusal::TooLong));
        }
        Ok(())
    }

    // Whether a value is in its range, however large it is.
    fn value_fits(&self, value: u64) -> bool
        ensures { result ≡ value_fits (plan_of self.now) value }
    {
        let d = self.settings.d;
        match u32::try_from(value) {
            Ok(value) => disciplines::value_fits(self.settings.discipline, d, value),
            Err(_) => false,
        }
    }

    // An arrival more.
    fn insert(&mut self, arrival: Arrival)
        requires room { 22 + 8 * self.old.settings.n + 16 * (self.old.count + 1) ≤ most_bytes }
        ensures plan_value { plan_of self.new ≡ with_arrivals (plan_of self.old) (arrival ∷ []) }
        ensures settings_value { self.new.settings ≡ self.old.settings }
        ensures count_value { self.new.count ≡ self.old.count + 1 }
    {
        let mut row = self.arrivals;
        arrivals::insert(&mut row[..=self.count], arrival);
        self.arrivals = row;
        self.count += 1;
        self.stage = Stage::InArrivals;
    }

    // An arrival.
    fn take_arrival(
        &mut self,
        time: u32,
        address: u32,
        value: u32,
        length: u32,
    ) -> Result<(), Fault>
        ensures { taken_of result self.new ≡ take_arrival (plan_of self.old) time address value length }
    {
        self.arrivals_refused(address, u64::from(value), length, 1)?;
        self.insert(Arrival {
            time: Slot(time),
            address: Address(address),
            value,
            length,
        });
        Ok(())
    }

    // What refuses an attempt.
    fn attempt_refused(&self, address: u32, length: u32) -> Result<(), Fault>
        ensures { fault_in result ≡ first_of 0 (attempt_tests (plan_of self.now) address length) }
    {
        if address > LARGEST {
            return Err(Fault::AddressLarge);
        }
        if length > LARGEST {
            return Err(Fault::LengthLarge);
        }
        if too_long(self.settings.n, self.count + 1) {
            return Err(Fault::Engine(Refusal::TooLong));
        }
        Ok(())
    }

    // An arrival whose value and length may be outside their ranges.
    fn take_attempt(
        &mut self,
        time: u32,
        address: u32,
        value: u32,
        length: u32,
    ) -> Result<(), Fault>
        ensures { taken_of result self.new ≡ take_attempt (plan_of self.old) time address value length }
    {
        self.attempt_refused(address, length)?;
        self.insert(Arrival {
            time: Slot(time),
            address: Address(address),
            value,
            length,
        });
        Ok(())
    }

    // What refuses repeated arrivals.
    fn repeated_refused(&self, said: &Repeated) -> Result<(), Fault>
        ensures { fault_in result ≡ first_of 0 (arrivals_tests (plan_of self.now) said.now.every said.now.from said.now.to said.now.address said.now.value said.now.length) }
    {
        if said.every == 0 {
            return Err(Fault::EveryZero);
        }
        if said.to < said.from {
            return Err(Fault::ToEarly);
        }
        let largest = said.value_at(self.discipline(), said.last_time());
        self.arrivals_refused(
            said.address,
            largest,
            said.length,
            said.later() as usize + 1,
        )
    }

    // Repeated arrivals.
    fn take_arrivals(&mut self, said: &Repeated) -> Result<(), Fault>
        ensures { taken_of result self.new ≡ take_arrivals (plan_of self.old) said.now.every said.now.from said.now.to said.now.address said.now.value said.now.length }
    {
        self.repeated_refused(said)?;
        let discipline = self.discipline();
        for turn in 0..said.later() + 1 {
            self.insert(said.arrival_at(discipline, said.from + turn * said.every));
        }
        Ok(())
    }

    // The run.
    fn take_run(&mut self, steps: u32) -> Result<(), Fault>
        ensures { taken_of result self.new ≡ take_run (plan_of self.old) steps }
    {
        if steps > LARGEST {
            return Err(Fault::StepsLarge);
        }
        self.stage = Stage::AfterRun;
        self.steps = steps;
        Ok(())
    }

    // Whether a line of this kind may come here.
    fn place(&self, kind: Option<Kind>) -> Result<(), Fault>
        ensures { fault_in result ≡ place_fault (plan_of self.now).stage (plan_of self.now).settings.n (kind_in kind) }
    {
        stages::place(self.stage, self.settings.n, kind)
    }

    // What the numbers of a line of another kind than the bus's say.
    fn take_said(&mut self, kind: Kind, values: [u32; 6]) -> Result<(), Fault>
        requires { kind ≡ Station → self.old.stage ≡ InStations }
        ensures { taken_of result self.new ≡ take_said (plan_of self.old) (kind_number kind) values }
    {
        let [first, second, third, fourth, fifth, sixth] = values;
        match kind {
            Kind::Station => self.take_station(first, second),
            Kind::Arrival => self.take_arrival(first, second, third, fourth),
            Kind::Arrivals => self.take_arrivals(&Repeated {
                every: first,
                from: second,
                to: third,
                address: fourth,
                value: fifth,
                length: sixth,
            }),
            Kind::Attempt => self.take_attempt(first, second, third, fourth),
            Kind::Bus | Kind::Run => self.take_run(first),
        }
    }

    // What comes after the first word of a line of this kind.
    fn take_kind(&mut self, kind: Kind, line: &[u8]) -> Result<(), Fault>
        requires bus_first { kind ≡ Bus → self.old.stage ≡ BeforeBus }
        requires station_early { kind ≡ Station → self.old.stage ≡ InStations }
        ensures { taken_of result self.new ≡ take_kind (plan_of self.old) (kind_number kind) line.now }
    {
        if kind == Kind::Bus {
            return self.take_bus(line);
        }
        let values = fields::fields_in(line, labels::labels_of(kind, self.discipline()))?;
        self.take_said(kind, values)
    }

    // A line.
    pub fn take(&mut self, line: &[u8]) -> Result<(), Fault>
        ensures { taken_of result self.new ≡ take_line (plan_of self.old) line.now }
    {
        let (word, rest) = fields::parted(line);
        if word.is_empty() {
            return Ok(());
        }
        let kind = labels::kind_of(word);
        self.place(kind)?;
        match kind {
            Some(kind) => self.take_kind(kind, rest),
            None => Ok(()),
        }
    }

    // The end of the text: the run has been said, or a line is missing.
    pub fn end(&self) -> Result<(), Fault>
        ensures { fault_in result ≡ cond (eqb (plan_of self.now).stage after_run) 0 (place_fault (plan_of self.now).stage (plan_of self.now).settings.n 0) }
    {
        if self.stage == Stage::AfterRun {
            Ok(())
        } else {
            self.place(None)
        }
    }
}
