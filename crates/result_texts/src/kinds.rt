ghost use Rattle.std.specs.Prelude.{◌≡◌};
ghost use Rattle.result_texts.specs.KindWords as spec;

use model_tree::Kind;

/// The word of a kind of fault.
pub fn kind_word(kind: Kind) -> &'static str
    ensures { result.now ≡ spec.kind_word kind }
{
    match kind {
        Kind::DoubleName => "DoubleName",
        Kind::UnknownName => "UnknownName",
        Kind::WrongKind => "WrongKind",
        Kind::TypeDiffers => "TypeDiffers",
        Kind::WidthRange => "WidthRange",
        Kind::LiteralRange => "LiteralRange",
        Kind::WaitInMethod => "WaitInMethod",
        Kind::TriggerInThread => "TriggerInThread",
        Kind::BlockingInNonblocking => "BlockingInNonblocking",
        Kind::WaitInUnwind => "WaitInUnwind",
        Kind::ThrowInUnwind => "ThrowInUnwind",
        Kind::SpawnInUnwind => "SpawnInUnwind",
        Kind::TransportInUnwind => "TransportInUnwind",
        Kind::BadHandler => "BadHandler",
        Kind::BadSpawn => "BadSpawn",
        Kind::ArgumentCount => "ArgumentCount",
        Kind::ReturnDiffers => "ReturnDiffers",
        Kind::BadClock => "BadClock",
        Kind::FifoSize => "FifoSize",
        Kind::SemaphoreRange => "SemaphoreRange",
        Kind::PortSize => "PortSize",
        Kind::BadBinding => "BadBinding",
        Kind::ModuleCycle => "ModuleCycle",
        Kind::TooManyObjects => "TooManyObjects",
        Kind::Unbound => "Unbound",
        Kind::DoubleBound => "DoubleBound",
        Kind::KindDiffers => "KindDiffers",
        Kind::TooMany => "TooMany",
        Kind::BadValue => "BadValue",
        Kind::BadResolution => "BadResolution",
        Kind::InexactTime => "InexactTime",
    }
}
