ghost use Rattle.std.specs.Prelude.{◌≡◌};
ghost use Rattle.ldar_law.specs.Limits.{regime_of};
ghost use Rattle.ldar_law.specs.Standing as law;

use fact_kinds::{Kind, Service};

/// The rules that apply to a component, by its kind and its service.
#[derive(Clone, Copy, Debug, PartialEq, Eq)]
pub enum Regime {
    /// Valves in gas or vapor service and in light liquid service (40 CFR 60.482-7a).
    ValveRules,
    /// Pumps in light liquid service (40 CFR 60.482-2a).
    PumpRules,
    /// Compressors in gas or vapor service (40 CFR 60.482-3a); the service is our own rule.
    CompressorRules,
    /// Pressure relief devices in gas or vapor service (40 CFR 60.482-4a).
    ReliefRules,
    /// Valves and pumps in heavy liquid service, pressure relief devices in light or heavy liquid service
    /// (40 CFR 60.482-8a).
    HeavyLiquidRules,
    /// Components in vacuum service or in VOC service less than 300 hours a year (40 CFR 60.482-1a(d) and (e)), and
    /// kinds in a service that does not suit them (our own rule).
    LeftOut,
}

impl Regime {
    /// The rules for a kind of component in a service (40 CFR 60.482-2a, 60.482-3a, 60.482-4a, 60.482-7a, 60.482-8a).
    pub fn of(kind: Kind, service: Service) -> Regime
        ensures value { result ≡ regime_of kind service }
    {
        match (kind, service) {
            (Kind::Valve, Service::Gas) => Regime::ValveRules,
            (Kind::Valve, Service::Light) => Regime::ValveRules,
            (Kind::Valve, Service::Heavy) => Regime::HeavyLiquidRules,
            (Kind::Pump, Service::Light) => Regime::PumpRules,
            (Kind::Pump, Service::Heavy) => Regime::HeavyLiquidRules,
            (Kind::Compressor, Service::Gas) => Regime::CompressorRules,
            (Kind::Relief, Service::Gas) => Regime::ReliefRules,
            (Kind::Relief, Service::Light) => Regime::HeavyLiquidRules,
            (Kind::Relief, Service::Heavy) => Regime::HeavyLiquidRules,
            _ => Regime::LeftOut,
        }
    }

    /// Whether these are the rules for valves (40 CFR 60.482-7a).
    pub fn are_valve_rules(self) -> bool
        ensures value { result ≡ law.are_valve_rules self }
    {
        matches!(self, Regime::ValveRules)
    }

    /// Whether these are the rules for pumps (40 CFR 60.482-2a).
    pub fn are_pump_rules(self) -> bool
        ensures value { result ≡ law.are_pump_rules self }
    {
        matches!(self, Regime::PumpRules)
    }

    /// Whether these are the rules for compressors (40 CFR 60.482-3a).
    pub fn are_compressor_rules(self) -> bool
        ensures value { result ≡ law.are_compressor_rules self }
    {
        matches!(self, Regime::CompressorRules)
    }

    /// Whether these are the rules for pressure relief devices (40 CFR 60.482-4a).
    pub fn are_relief_rules(self) -> bool
        ensures value { result ≡ law.are_relief_rules self }
    {
        matches!(self, Regime::ReliefRules)
    }

    /// Whether these are the rules for heavy liquid service (40 CFR 60.482-8a).
    pub fn are_heavy_liquid_rules(self) -> bool
        ensures value { result ≡ law.are_heavy_liquid_rules self }
    {
        matches!(self, Regime::HeavyLiquidRules)
    }

    /// Whether the rules exclude the component (40 CFR 60.482-1a(d), (e)).
    pub fn leave_out(self) -> bool
        ensures value { result ≡ law.leave_out self }
    {
        matches!(self, Regime::LeftOut)
    }
}
