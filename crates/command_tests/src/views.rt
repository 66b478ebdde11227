// bench/rows.py writes this file.
use crate::runs::{EMPTY, says};
use disk_model::MemoryDisk;
use std::alloc::Global;
use std::test::Fail;
use test_kit::is;

// Process unit 1 with valves 1 to 4, pumps 5 to 7, relief device 8 and compressor 9, and a precision test of instrument 1.
const BASE: &[u8] =
    b"B\0\0\0\0\0\x01\0\x0a\x01Gd\0\0\x01\0CRUDE\0\0\0\0\0\0\0\x02Gd\0\0\0\x01\x01\x01\0\0\x01\
    \0\0\x01\x02Gd\0\0\0\x02\x01\x01\0\0\x01\0\0\x01\x02Gd\0\0\0\x03\x01\x01\0\0\x01\0\0\x01\
    \x02Gd\0\0\0\x04\x01\x01\0\0\x01\0\0\x01\x02Gd\0\0\0\x05\x01\x02\0\0\x02\0\0\x01\x02Gd\0\
    \0\0\x06\x01\x02\x01\0\x02\0\0\x01\x02Gd\0\0\0\x07\x01\x02\0\0\x03\0\0\x01\x02Gd\0\0\0\
    \x08\x01\x04\0\0\x01\0\0\x01\x02Gd\0\0\0\x09\x01\x03\0\0\x01\0\0\x01B\0\x01\0\0\0\x01\0\
    \x01\x08M\x0c\0<\0\x01\0\0\x01\xf4\0\0\x01\xf4\0\0\x01\xf4\0\0\x01\xf4";

const BELOW: &[u8] =
    b"B\0\x02\0\0\0\x01\0\x06\x07M=\x01,\0\x01\0\0\x01\xf4\x0aM=\x02X\0\x01\0\x01\0\x01\x01\0\
    \0\x01\xf3\0\0\0\0\x0aM=\x02X\0\x05\0\x01\0\x01\x01\0\0\x07\xcf\0\0\0\0\x0aM=\x02X\0\x06\
    \0\x01\0\x01\x01\0\0\x13\x87\0\0\0\0\x0aM=\x02X\0\x07\0\x01\0\x01\x01\0\0'\x0f\0\0\0\0\
    \x0aM=\x02X\0\x09\0\x01\0\x01\x01\0\0\x02\xbc\0\0\0\0";

const AT: &[u8] =
    b"B\0\x02\0\0\0\x01\0\x05\x07M=\x01,\0\x01\0\0\x01\xf4\x0aM=\x02X\0\x01\0\x01\0\x01\x01\0\
    \0\x01\xf4\0\0\0\0\x0aM=\x02X\0\x05\0\x01\0\x01\x01\0\0\x07\xd0\0\0\0\0\x0aM=\x02X\0\x06\
    \0\x01\0\x01\x01\0\0\x13\x88\0\0\0\0\x0aM=\x02X\0\x07\0\x01\0\x01\x01\0\0'\x10\0\0\0\0";

const UNFIT: &[u8] = b"B\0\x02\0\0\0\x01\0\x01\x0aM=\x02g\0\x01\0\x01\0\x01\x01\0\0\x02l\0\0\0\0";

const FIT_LATER: &[u8] =
    b"B\0\x02\0\0\0\x01\0\x01\x0aM=\x02g\0\x01\0\x01\0\x01\x01\0\0\x02l\0\0\0\0B\0\x02\0\0\0\
    \x02\0\x01\x0aM>\x02X\0\x02\0\x01\0\x01\x01\0\0\0\x14\0\0\0\0B\0\x02\0\0\0\x03\0\x01\x07\
    M=\x01,\0\x01\0\0\x01\xf4";

const CLEAN_TWICE: &[u8] =
    b"B\0\x02\0\0\0\x01\0\x07\x07M=\x01,\0\x01\0\0\x01\xf4\x0aM=\x02g\0\x01\0\x01\0\x01\x01\0\
    \0\x02l\0\0\0\0\x0cM?\x02X\0\x01\x01\x07ML\x01,\0\x01\0\0\x01\xf4\x0aML\x02X\0\x01\0\x01\
    \0\x01\x01\0\0\0\x14\0\0\0\0\x07Mg\x01,\0\x01\0\0\x01\xf4\x0aMg\x02X\0\x01\0\x01\0\x01\
    \x01\0\0\0\x14\0\0\0\0";

const NO_SHUTDOWN: &[u8] =
    b"B\0\x02\0\0\0\x01\0\x03\x07M=\x01,\0\x01\0\0\x01\xf4\x0aM=\x02g\0\x01\0\x01\0\x01\x01\0\
    \0\x02l\0\0\0\0\x0dMG\x02X\0\x01\x01\0\x09M\xac";

const SHUTDOWN: &[u8] =
    b"B\0\x02\0\0\0\x01\0\x03\x07M=\x01,\0\x01\0\0\x01\xf4\x0aM=\x02g\0\x01\0\x01\0\x01\x01\0\
    \0\x02l\0\0\0\0\x0dMG\x02X\0\x01\x01\0\x09M\xacB\0\0\0\0\0\x02\0\x01\x06M\xa3\0\0\x01\0\
    \x0e";

const TRIED_IN_SHUTDOWN: &[u8] =
    b"B\0\x02\0\0\0\x01\0\x04\x07M=\x01,\0\x01\0\0\x01\xf4\x0aM=\x02g\0\x01\0\x01\0\x01\x01\0\
    \0\x02l\0\0\0\0\x0dMG\x02X\0\x01\x01\0\x09M\xac\x0cM\xa7\x02X\0\x01\0B\0\0\0\0\0\x02\0\
    \x01\x06M\xa3\0\0\x01\0\x0e";

const DELAYED_TOO_LATE: &[u8] =
    b"B\0\x02\0\0\0\x01\0\x03\x07M=\x01,\0\x01\0\0\x01\xf4\x0aM=\x02g\0\x01\0\x01\0\x01\x01\0\
    \0\x02l\0\0\0\0\x0dMM\x02X\0\x01\x01\0\x09M\xacB\0\0\0\0\0\x02\0\x01\x06M\xa3\0\0\x01\0\
    \x0e";

const DRIP_IS_A_LEAK: &[u8] = b"B\0\x02\0\0\0\x01\0\x01\x0bMJ\x02X\0\x05\x02";

const DRY_AGAIN: &[u8] =
    b"B\0\x02\0\0\0\x01\0\x03\x0bMJ\x02X\0\x05\x02\x0cML\x02X\0\x05\x01\x0bMQ\x02X\0\x05\0";

const PUMP_DELAYED: &[u8] =
    b"B\0\x02\0\0\0\x01\0\x04\x08L\x90\0<\0\x01\0\0\x01\xf4\0\0\x01\xf4\0\0\x01\xf4\0\0\x01\
    \xf4\x07L\x90\x01,\0\x01\0\0\x01\xf4\x0aL\x90\x02X\0\x05\0\x01\0\x01\x01\0\0\x07\xd0\0\0\
    \0\0\x0dL\x95\x02X\0\x05\x04\0\0M=";

const NO_ATTEMPT: &[u8] =
    b"B\0\x02\0\0\0\x01\0\x04\x07M=\x01,\0\x01\0\0\x01\xf4\x0aM=\x02g\0\x01\0\x01\0\x01\x01\0\
    \0\x02l\0\0\0\0\x07M?\x01,\0\x01\0\0\x01\xf4\x0aM?\x02X\0\x01\0\x01\0\x01\x01\0\0\0\x14\
    \0\0\0\0";

const LEAK_AFTER_ATTEMPT: &[u8] =
    b"B\0\x02\0\0\0\x01\0\x07\x07M=\x01,\0\x01\0\0\x01\xf4\x0aM=\x02g\0\x01\0\x01\0\x01\x01\0\
    \0\x02l\0\0\0\0\x0cM@\x02X\0\x01\x01\x07MA\x01,\0\x01\0\0\x01\xf4\x0aMA\x02X\0\x01\0\x01\
    \0\x01\x01\0\0\x02\xbc\0\0\0\0\x07MB\x01,\0\x01\0\0\x01\xf4\x0aMB\x02X\0\x01\0\x01\0\x01\
    \x01\0\0\0\x14\0\0\0\0";

const TRIED_TWICE: &[u8] =
    b"B\0\x02\0\0\0\x01\0\x08\x07M=\x01,\0\x01\0\0\x01\xf4\x0aM=\x02g\0\x01\0\x01\0\x01\x01\0\
    \0\x02l\0\0\0\0\x0cM@\x02X\0\x01\x01\x07MA\x01,\0\x01\0\0\x01\xf4\x0aMA\x02X\0\x01\0\x01\
    \0\x01\x01\0\0\x02\xbc\0\0\0\0\x0cMC\x02X\0\x01\x01\x07MD\x01,\0\x01\0\0\x01\xf4\x0aMD\
    \x02X\0\x01\0\x01\0\x01\x01\0\0\0\x14\0\0\0\0";

const PURGED: &[u8] =
    b"B\0\x02\0\0\0\x01\0\x08\x07M=\x01,\0\x01\0\0\x01\xf4\x0aM=\x02g\0\x01\0\x01\0\x01\x01\0\
    \0\x02l\0\0\0\0\x0dM>\x02X\0\x01\x03\0\x09M\xac\x07MP\x01,\0\x01\0\0\x01\xf4\x0aMP\x02X\
    \0\x01\0\x01\0\x01\x01\0\0\0\x14\0\0\0\0\x08Mo\0<\0\x01\0\0\x01\xf4\0\0\x01\xf4\0\0\x01\
    \xf4\0\0\x01\xf4\x07Mo\x01,\0\x01\0\0\x01\xf4\x0aMo\x02X\0\x01\0\x01\0\x01\x01\0\0\0\x14\
    \0\0\0\0";

const ISOLATED: &[u8] =
    b"B\0\x02\0\0\0\x01\0\x08\x07M=\x01,\0\x01\0\0\x01\xf4\x0aM=\x02g\0\x01\0\x01\0\x01\x01\0\
    \0\x02l\0\0\0\0\x0dM>\x02X\0\x01\x02\0\x09M\xac\x07MP\x01,\0\x01\0\0\x01\xf4\x0aMP\x02X\
    \0\x01\0\x01\0\x01\x01\0\0\0\x14\0\0\0\0\x08Mo\0<\0\x01\0\0\x01\xf4\0\0\x01\xf4\0\0\x01\
    \xf4\0\0\x01\xf4\x07Mo\x01,\0\x01\0\0\x01\xf4\x0aMo\x02X\0\x01\0\x01\0\x01\x01\0\0\0\x14\
    \0\0\0\0";

const NO_READING: &[u8] =
    b"B\0\0\0\0\0\x02\0\x02\x01M\x19\0\0\x02\0COKER\0\0\0\0\0\0\0\x02M\x19\0\0\0\x1e\x02\x01\0\
    \0\x01\0\0\x01";

const QUARTERLY: &[u8] =
    b"B\0\0\0\0\0\x02\0\x02\x01M\x19\0\0\x02\0COKER\0\0\0\0\0\0\0\x02M\x19\0\0\0\x1e\x02\x01\0\
    \0\x01\0\0\x01B\0\x02\0\0\0\x01\0\x0c\x08M3\0<\0\x01\0\0\x01\xf4\0\0\x01\xf4\0\0\x01\xf4\
    \0\0\x01\xf4\x07M3\x01,\0\x01\0\0\x01\xf4\x0aM3\x02X\0\x1e\0\x01\0\x01\x01\0\0\0\x0a\0\0\
    \0\0\x08MP\0<\0\x01\0\0\x01\xf4\0\0\x01\xf4\0\0\x01\xf4\0\0\x01\xf4\x07MP\x01,\0\x01\0\0\
    \x01\xf4\x0aMP\x02X\0\x1e\0\x01\0\x01\x01\0\0\0\x0a\0\0\0\0\x08Mo\0<\0\x01\0\0\x01\xf4\0\
    \0\x01\xf4\0\0\x01\xf4\0\0\x01\xf4\x07Mo\x01,\0\x01\0\0\x01\xf4\x0aMo\x02X\0\x1e\0\x01\0\
    \x01\x01\0\0\0\x0a\0\0\0\0\x08M\xca\0<\0\x01\0\0\x01\xf4\0\0\x01\xf4\0\0\x01\xf4\0\0\x01\
    \xf4\x07M\xca\x01,\0\x01\0\0\x01\xf4\x0aM\xca\x02X\0\x1e\0\x01\0\x01\x01\0\0\0\x0a\0\0\0\
    \0";

const LATE_LEAK: &[u8] =
    b"B\0\0\0\0\0\x02\0\x02\x01M\x19\0\0\x02\0COKER\0\0\0\0\0\0\0\x02M\x19\0\0\0\x1e\x02\x01\0\
    \0\x01\0\0\x01B\0\x02\0\0\0\x01\0\x0c\x08M3\0<\0\x01\0\0\x01\xf4\0\0\x01\xf4\0\0\x01\xf4\
    \0\0\x01\xf4\x07M3\x01,\0\x01\0\0\x01\xf4\x0aM3\x02X\0\x1e\0\x01\0\x01\x01\0\0\0\x0a\0\0\
    \0\0\x08MP\0<\0\x01\0\0\x01\xf4\0\0\x01\xf4\0\0\x01\xf4\0\0\x01\xf4\x07MP\x01,\0\x01\0\0\
    \x01\xf4\x0aMP\x02X\0\x1e\0\x01\0\x01\x01\0\0\0\x0a\0\0\0\0\x08Mo\0<\0\x01\0\0\x01\xf4\0\
    \0\x01\xf4\0\0\x01\xf4\0\0\x01\xf4\x07Mo\x01,\0\x01\0\0\x01\xf4\x0aMo\x02X\0\x1e\0\x01\0\
    \x01\x01\0\0\0\x0a\0\0\0\0\x08M\xca\0<\0\x01\0\0\x01\xf4\0\0\x01\xf4\0\0\x01\xf4\0\0\x01\
    \xf4\x07M\xca\x01,\0\x01\0\0\x01\xf4\x0aM\xca\x02X\0\x1e\0\x01\0\x01\x01\0\0\0\x0a\0\0\0\
    \0B\0\x02\0\0\0\x02\0\x03\x08My\0<\0\x01\0\0\x01\xf4\0\0\x01\xf4\0\0\x01\xf4\0\0\x01\xf4\
    \x07My\x01,\0\x01\0\0\x01\xf4\x0aMy\x02X\0\x1e\0\x01\0\x01\x01\0\0\x02\xbc\0\0\0\0";

const RELEASED: &[u8] =
    b"B\0\0\0\0\0\x02\0\x02\x01Gd\0\0\x03\0FLARE\0\0\0\0\0\0\0\x02Gd\0\0\0(\x03\x04\0\0\x01\0\
    \0\x01B\0\x02\0\0\0\x01\0\x03\x0eM=\x02X\0(\x07MA\x01,\0\x01\0\0\x01\xf4\x0aMA\x02X\0(\0\
    \x01\0\x01\x01\0\0\x02W\0\0\0d";

const RELEASING: &[u8] =
    b"B\0\0\0\0\0\x02\0\x02\x01Gd\0\0\x03\0FLARE\0\0\0\0\0\0\0\x02Gd\0\0\0(\x03\x04\0\0\x01\0\
    \0\x01B\0\x02\0\0\0\x01\0\x03\x0eM=\x02X\0(\x07MA\x01,\0\x01\0\0\x01\xf4\x0aMA\x02X\0(\0\
    \x01\0\x01\x01\0\0\x02X\0\0\0d";

const DRIFTED: &[u8] =
    b"B\0\0\0\0\0\x02\0\x04\x01M\x19\0\0\x02\0COKER\0\0\0\0\0\0\0\x02M\x19\0\0\0\x1e\x02\x01\0\
    \0\x01\0\0\x01\x02M\x19\0\0\0\x1f\x02\x01\0\0\x01\0\0\x01\x02M\x19\0\0\0\x20\x02\x01\0\0\
    \x01\0\0\x01B\0\x02\0\0\0\x01\0\x06\x08M*\0<\0\x01\0\0\x01\xf4\0\0\x01\xf4\0\0\x01\xf4\0\
    \0\x01\xf4\x07M=\x01,\0\x01\0\0\x01\xf4\x0aM=\x02X\0\x1e\0\x01\0\x01\x01\0\0\x01\xb8\0\0\
    \0\0\x0aM=\x02X\0\x1f\0\x01\0\x01\x01\0\0\x01\xb9\0\0\0\0\x0aM=\x02X\0\x20\0\x01\0\x01\
    \x01\0\0\x01\xf3\0\0\0\0\x09M=\x03\x84\0\x01\0\0\x01\xf4\0\0\x01\xb8\0\0\x01\xb8\0\0\x01\
    \xb8";

const DRIFTED_LESS: &[u8] =
    b"B\0\0\0\0\0\x02\0\x04\x01M\x19\0\0\x02\0COKER\0\0\0\0\0\0\0\x02M\x19\0\0\0\x1e\x02\x01\0\
    \0\x01\0\0\x01\x02M\x19\0\0\0\x1f\x02\x01\0\0\x01\0\0\x01\x02M\x19\0\0\0\x20\x02\x01\0\0\
    \x01\0\0\x01B\0\x02\0\0\0\x01\0\x06\x08M*\0<\0\x01\0\0\x01\xf4\0\0\x01\xf4\0\0\x01\xf4\0\
    \0\x01\xf4\x07M=\x01,\0\x01\0\0\x01\xf4\x0aM=\x02X\0\x1e\0\x01\0\x01\x01\0\0\x01\xb8\0\0\
    \0\0\x0aM=\x02X\0\x1f\0\x01\0\x01\x01\0\0\x01\xb9\0\0\0\0\x0aM=\x02X\0\x20\0\x01\0\x01\
    \x01\0\0\x01\xf3\0\0\0\0\x09M=\x03\x84\0\x01\0\0\x01\xf4\0\0\x01\xc2\0\0\x01\xc2\0\0\x01\
    \xc2";

const CLEAN_MONTHS: &[u8] =
    b"B\0\0\0\0\0\x02\0\x02\x01M\x19\0\0\x02\0COKER\0\0\0\0\0\0\0\x02M\x19\0\0\0\x1e\x02\x01\0\
    \0\x01\0\0\x01B\0\x02\0\0\0\x01\0\x06\x08MP\0<\0\x01\0\0\x01\xf4\0\0\x01\xf4\0\0\x01\xf4\
    \0\0\x01\xf4\x07MP\x01,\0\x01\0\0\x01\xf4\x0aMP\x02X\0\x1e\0\x01\0\x01\x01\0\0\0\x0a\0\0\
    \0\0\x08Mo\0<\0\x01\0\0\x01\xf4\0\0\x01\xf4\0\0\x01\xf4\0\0\x01\xf4\x07Mo\x01,\0\x01\0\0\
    \x01\xf4\x0aMo\x02X\0\x1e\0\x01\0\x01\x01\0\0\0\x0a\0\0\0\0";

const DRIPS: &[u8] =
    b"B\0\0\0\0\0\x02\0\x02\x01M*\0\0\x03\0FLARE\0\0\0\0\0\0\0\x02M;\0\0\0)\x03\x02\0\0\x02\0\
    \0\x01B\0\x02\0\0\0\x01\0\x01\x0bM<\x02X\0)\x01";

const DRIPS_MET: &[u8] =
    b"B\0\0\0\0\0\x02\0\x02\x01M*\0\0\x03\0FLARE\0\0\0\0\0\0\0\x02M;\0\0\0)\x03\x02\0\0\x02\0\
    \0\x01B\0\x02\0\0\0\x01\0\x03\x0bM<\x02X\0)\x01\x07M?\x01,\0\x01\0\0\x01\xf4\x0aM?\x02X\
    \0)\0\x01\0\x01\x01\0\0\x07\xcf\0\0\0\0";

const DRIPS_AGAIN: &[u8] =
    b"B\0\0\0\0\0\x02\0\x02\x01M*\0\0\x03\0FLARE\0\0\0\0\0\0\0\x02M;\0\0\0)\x03\x02\0\0\x02\0\
    \0\x01B\0\x02\0\0\0\x01\0\x04\x0bM<\x02X\0)\x01\x07M?\x01,\0\x01\0\0\x01\xf4\x0aM?\x02X\
    \0)\0\x01\0\x01\x01\0\0\x07\xcf\0\0\0\0\x0bMC\x02X\0)\x01";

const SKIPPED_AGAIN: &[u8] =
    b"B\0\0\0\0\0\x02\0\x01\x05M\xc1\0\0\x01\x01MgB\0\x02\0\0\0\x01\0\x09\x08M=\0<\0\x01\0\0\
    \x01\xf4\0\0\x01\xf4\0\0\x01\xf4\0\0\x01\xf4\x07M=\x01,\0\x01\0\0\x01\xf4\x0aM=\x02X\0\
    \x01\0\x01\0\x01\x01\0\0\0\x14\0\0\0\0\x08M\x97\0<\0\x01\0\0\x01\xf4\0\0\x01\xf4\0\0\x01\
    \xf4\0\0\x01\xf4\x07M\x97\x01,\0\x01\0\0\x01\xf4\x0aM\x97\x02X\0\x01\0\x01\0\x01\x01\0\0\
    \0\x14\0\0\0\0\x08NO\0<\0\x01\0\0\x01\xf4\0\0\x01\xf4\0\0\x01\xf4\0\0\x01\xf4\x07NO\x01,\
    \0\x01\0\0\x01\xf4\x0aNO\x02X\0\x01\0\x01\0\x01\x01\0\0\0\x14\0\0\0\0";

const ONE_GOOD_QUARTER: &[u8] =
    b"B\0\0\0\0\0\x02\0\x01\x05M\xc1\0\0\x01\x01MgB\0\x02\0\0\0\x01\0\x03\x08M=\0<\0\x01\0\0\
    \x01\xf4\0\0\x01\xf4\0\0\x01\xf4\0\0\x01\xf4\x07M=\x01,\0\x01\0\0\x01\xf4\x0aM=\x02X\0\
    \x01\0\x01\0\x01\x01\0\0\0\x14\0\0\0\0";

const SKIPPED: &[u8] =
    b"B\0\0\0\0\0\x02\0\x01\x05M\xc1\0\0\x01\x01MgB\0\x02\0\0\0\x01\0\x06\x08M=\0<\0\x01\0\0\
    \x01\xf4\0\0\x01\xf4\0\0\x01\xf4\0\0\x01\xf4\x07M=\x01,\0\x01\0\0\x01\xf4\x0aM=\x02X\0\
    \x01\0\x01\0\x01\x01\0\0\0\x14\0\0\0\0\x08M\x97\0<\0\x01\0\0\x01\xf4\0\0\x01\xf4\0\0\x01\
    \xf4\0\0\x01\xf4\x07M\x97\x01,\0\x01\0\0\x01\xf4\x0aM\x97\x02X\0\x01\0\x01\0\x01\x01\0\0\
    \0\x14\0\0\0\0";

const NOT_SKIPPED: &[u8] =
    b"B\0\0\0\0\0\x02\0\x01\x05M\xc1\0\0\x01\x01MgB\0\x02\0\0\0\x01\0\x06\x08M=\0<\0\x01\0\0\
    \x01\xf4\0\0\x01\xf4\0\0\x01\xf4\0\0\x01\xf4\x07M=\x01,\0\x01\0\0\x01\xf4\x0aM=\x02X\0\
    \x01\0\x01\0\x01\x01\0\0\0\x14\0\0\0\0\x08M\x97\0<\0\x01\0\0\x01\xf4\0\0\x01\xf4\0\0\x01\
    \xf4\0\0\x01\xf4\x07M\x97\x01,\0\x01\0\0\x01\xf4\x0aM\x97\x02X\0\x01\0\x01\0\x01\x01\0\0\
    \0\x14\0\0\0\0";

const LATE_REPAIR: &[u8] =
    b"B\0\x02\0\0\0\x01\0\x05\x07M=\x01,\0\x01\0\0\x01\xf4\x0aM=\x02g\0\x01\0\x01\0\x01\x01\0\
    \0\x02l\0\0\0\0\x0cM?\x02X\0\x01\x01\x07MM\x01,\0\x01\0\0\x01\xf4\x0aMM\x02X\0\x01\0\x01\
    \0\x01\x01\0\0\0\x14\0\0\0\0";

const GROUND_OF_PUMPS: &[u8] = b"B\0\x02\0\0\0\x01\0\x01\x0dMG\x02X\0\x01\x04\0\x09M\xac";

const NO_SIGNER: &[u8] = b"B\0\x02\0\0\0\x01\0\x01\x0dMG\x02X\0\x01\x01\0\0M\xac";

const NOTIFIED_LATE: &[u8] = b"B\0\0\0\0\0\x02\0\x01\x05M\xc1\0\0\x01\x01Mh";

const NO_QUARTER: &[u8] = b"B\0\0\0\0\0\x02\0\x01\x05M\xc2\0\0\x01\x01Mg";

const EVERY_KIND: &[u8] =
    b"B\0\0\0\0\0\x02\0\x10\x01Gd\0\0\x04\0ALKY-2\0\0\0\0\0\0\x02Gd\0\0\02\x04\x01\0\0\x01\0\0\
    \x01\x02Gd\0\0\03\x04\x02\0\0\x03\0\0\x01\x03M=\x02X\02\x01\x01\0\x01\x04M>\x02X\02\x05M\
    \xc1\0\0\x04\x03Mg\x06M\xa3\0\0\x04\0\x0e\x07M=\x01,\0\x01\0\0\x01\xf4\x08M=\0<\0\x01\0\
    \0\x01\xf4\0\0\x01\xf4\0\0\x01\xf4\0\0\x01\xf4\x09M=\x03\x84\0\x01\0\0\x01\xf4\0\0\x01\
    \xf4\0\0\x01\xf4\0\0\x01\xf4\x0aM=\x02X\03\0\x01\0\x01\x01\0\0\0\x14\0\0\0\0\x0bM=\x02X\
    \0\x05\x01\x0cM=\x02X\03\x01\x0dM=\x02X\03\x04\0\0MG\x0eM=\x02X\0\x08\x0fM=\x02X\03\x02\
    \x01";

// A disk with the base, and then these batches, to which these lines are the replies.
pub fn docked(alloc: Global, input: &[u8], said: &str) -> Result<MemoryDisk, Fail> {
    let mut disk = MemoryDisk::new(alloc, EMPTY, &[])?;
    says(
        alloc,
        &mut disk,
        "dock",
        BASE,
        "receipt 0 1 1\nreceipt 1 1 2\n",
    )?;
    says(alloc, &mut disk, "dock", input, said)?;
    Ok(disk)
}

// Batches, words, the replies to the batches, and what is shown then.
type View<'a> = (&'a [u8], &'a str, &'a str, &'a str);

// Sees that this is shown.
fn shows(alloc: Global, view: &View) -> Result<(), Fail> {
    let mut disk = docked(alloc, view.0, view.2)?;
    says(alloc, &mut disk, view.1, &[], view.3)
}

const TAGS: [View; 12] = [
    (
        BELOW,
        "show tags 1 2024-02-28",
        "receipt 2 1 3\n",
        "tags 1 2024-02-28\nend 0\n",
    ),
    (
        AT,
        "show tags 1 2024-02-28",
        "receipt 2 1 3\n",
        "tags 1 2024-02-28\n1 detected 2024-02-20 attempt 2024-02-25 - repair 2024-03-06 - tagged\n5 detected 2024-02-20 attempt 2024-02-25 - repair 2024-03-06 - tagged\n6 detected 2024-02-20 attempt 2024-02-25 - repair 2024-03-06 - tagged\n7 detected 2024-02-20 attempt 2024-02-25 - repair 2024-03-06 - tagged\nend 4\n",
    ),
    (
        UNFIT,
        "show tags 1 2024-02-28",
        "receipt 2 1 3\n",
        "tags 1 2024-02-28\nend 0\n",
    ),
    (
        FIT_LATER,
        "show tags 1 2024-02-28",
        "receipt 2 1 3\nreceipt 2 2 4\nreceipt 2 3 5\n",
        "tags 1 2024-02-28\n1 detected 2024-02-20 attempt 2024-02-25 - repair 2024-03-06 - tagged\nend 1\n",
    ),
    (
        CLEAN_TWICE,
        "show tags 1 2024-04-02",
        "receipt 2 1 3\n",
        "tags 1 2024-04-02\n1 detected 2024-02-20 attempt 2024-02-25 2024-02-22 repair 2024-03-06 2024-03-06 removable\nend 1\n",
    ),
    (
        NO_SHUTDOWN,
        "show tags 1 2024-03-20",
        "receipt 2 1 3\n",
        "tags 1 2024-03-20\n1 detected 2024-02-20 attempt 2024-02-25 - repair shutdown - tagged\nend 1\n",
    ),
    (
        SHUTDOWN,
        "show tags 1 2024-07-01",
        "receipt 2 1 3\nreceipt 0 2 4\n",
        "tags 1 2024-07-01\n1 detected 2024-02-20 attempt 2024-02-25 - repair 2024-06-14 - tagged\nend 1\n",
    ),
    (
        TRIED_IN_SHUTDOWN,
        "show tags 1 2024-07-01",
        "receipt 2 1 3\nreceipt 0 2 4\n",
        "tags 1 2024-07-01\n1 detected 2024-02-20 attempt 2024-02-25 2024-06-05 repair 2024-06-30 - tagged\nend 1\n",
    ),
    (
        DELAYED_TOO_LATE,
        "show tags 1 2024-07-01",
        "receipt 2 1 3\nreceipt 0 2 4\n",
        "tags 1 2024-07-01\n1 detected 2024-02-20 attempt 2024-02-25 - repair 2024-03-06 - tagged\nend 1\n",
    ),
    (
        DRIP_IS_A_LEAK,
        "show tags 1 2024-03-05",
        "receipt 2 1 3\n",
        "tags 1 2024-03-05\n5 detected 2024-03-04 attempt 2024-03-09 - repair 2024-03-19 - tagged\nend 1\n",
    ),
    (
        DRY_AGAIN,
        "show tags 1 2024-03-12",
        "receipt 2 1 3\n",
        "tags 1 2024-03-12\n5 detected 2024-03-04 attempt 2024-03-09 2024-03-06 repair 2024-03-19 2024-03-11 removable\nend 1\n",
    ),
    (
        PUMP_DELAYED,
        "show tags 1 2024-02-20",
        "receipt 2 1 3\n",
        "tags 1 2024-02-20\n5 detected 2023-08-31 attempt 2023-09-05 - repair 2024-02-29 - tagged\nend 1\n",
    ),
];

#[test]
fn tags_are_those_of_the_rule(rt: HostRuntime) -> Result<(), Fail> {
    for view in &TAGS {
        shows(rt.alloc(), view)?;
    }
    Ok(())
}

const VIEWS: [View; 21] = [
    (
        NO_ATTEMPT,
        "show tags 1 2024-02-22",
        "receipt 2 1 3\n",
        "tags 1 2024-02-22\n1 detected 2024-02-20 attempt 2024-02-25 - repair 2024-03-06 - tagged\nend 1\n",
    ),
    (
        LEAK_AFTER_ATTEMPT,
        "show tags 1 2024-02-25",
        "receipt 2 1 3\n",
        "tags 1 2024-02-25\n1 detected 2024-02-20 attempt 2024-02-25 2024-02-23 repair 2024-03-06 - tagged\nend 1\n",
    ),
    (
        TRIED_TWICE,
        "show tags 1 2024-02-28",
        "receipt 2 1 3\n",
        "tags 1 2024-02-28\n1 detected 2024-02-20 attempt 2024-02-25 2024-02-23 repair 2024-03-06 2024-02-27 tagged\nend 1\n",
    ),
    (
        PURGED,
        "show tags 1 2024-04-11",
        "receipt 2 1 3\n",
        "tags 1 2024-04-11\n1 detected 2024-02-20 attempt 2024-02-25 - repair purge 2024-04-10 tagged\nend 1\n",
    ),
    (
        ISOLATED,
        "show tags 1 2024-04-11",
        "receipt 2 1 3\n",
        "tags 1 2024-04-11\n1 detected 2024-02-20 attempt 2024-02-25 - repair isolated - tagged\nend 1\n",
    ),
    (
        NO_READING,
        "show due 2 2024-02-20",
        "receipt 0 2 3\n",
        "due 2 2024-02-20\n30 monthly 2024-02-29 open\nend 1\n",
    ),
    (
        QUARTERLY,
        "show due 2 2024-09-10",
        "receipt 0 2 3\nreceipt 2 1 4\n",
        "due 2 2024-09-10\nend 0\n",
    ),
    (
        LATE_LEAK,
        "show due 2 2024-09-10",
        "receipt 0 2 3\nreceipt 2 1 4\nreceipt 2 2 5\n",
        "due 2 2024-09-10\n30 monthly 2024-05-31 missed\n30 monthly 2024-06-30 missed\n30 monthly 2024-08-31 missed\n30 monthly 2024-09-30 open\nend 4\n",
    ),
    (
        RELEASED,
        "show due 3 2024-02-24",
        "receipt 0 2 3\nreceipt 2 1 4\n",
        "due 3 2024-02-24\n40 release 2024-02-25 done 2024-02-24\nend 1\n",
    ),
    (
        RELEASING,
        "show due 3 2024-02-24",
        "receipt 0 2 3\nreceipt 2 1 4\n",
        "due 3 2024-02-24\n40 release 2024-02-25 open\nend 1\n",
    ),
    (
        DRIFTED,
        "show due 2 2024-02-21",
        "receipt 0 2 3\nreceipt 2 1 4\n",
        "due 2 2024-02-21\n30 monthly 2024-02-29 done 2024-02-20\n31 monthly 2024-02-29 open\n32 monthly 2024-02-29 open\nend 3\n",
    ),
    (
        DRIFTED_LESS,
        "show due 2 2024-02-21",
        "receipt 0 2 3\nreceipt 2 1 4\n",
        "due 2 2024-02-21\n30 monthly 2024-02-29 done 2024-02-20\n31 monthly 2024-02-29 done 2024-02-20\n32 monthly 2024-02-29 done 2024-02-20\nend 3\n",
    ),
    (
        CLEAN_MONTHS,
        "show due 2 2024-08-20",
        "receipt 0 2 3\nreceipt 2 1 4\n",
        "due 2 2024-08-20\n30 monthly 2024-02-29 missed\n30 monthly 2024-05-31 missed\n30 monthly 2024-06-30 missed\n30 quarterly 2024-07-31 missed\nend 4\n",
    ),
    (
        DRIPS,
        "show due 3 2024-02-21",
        "receipt 0 2 3\nreceipt 2 1 4\n",
        "due 3 2024-02-21\n41 first 2024-03-19 open\n41 weekly 2024-02-25 done 2024-02-19\n41 drip 2024-02-24 open\nend 3\n",
    ),
    (
        DRIPS_MET,
        "show due 3 2024-02-23",
        "receipt 0 2 3\nreceipt 2 1 4\n",
        "due 3 2024-02-23\n41 first 2024-03-19 done 2024-02-22\n41 weekly 2024-02-25 done 2024-02-19\n41 drip 2024-02-24 done 2024-02-22\nend 3\n",
    ),
    (
        DRIPS_AGAIN,
        "show due 3 2024-02-27",
        "receipt 0 2 3\nreceipt 2 1 4\n",
        "due 3 2024-02-27\n41 first 2024-03-19 done 2024-02-22\n41 weekly 2024-03-03 done 2024-02-26\nend 2\n",
    ),
    (
        SKIPPED_AGAIN,
        "show percent 1 20 2025-02-01",
        "receipt 0 2 3\nreceipt 2 1 4\n",
        "percent 1 20 leaking 0 monitored 0 not good skipped\n",
    ),
    (
        ONE_GOOD_QUARTER,
        "show percent 1 18 2024-08-01",
        "receipt 0 2 3\nreceipt 2 1 4\n",
        "percent 1 18 leaking 0 monitored 0 not good not skipped\n",
    ),
    (
        SKIPPED,
        "show percent 1 18 2024-08-01",
        "receipt 0 2 3\nreceipt 2 1 4\n",
        "percent 1 18 leaking 0 monitored 0 not good skipped\n",
    ),
    (
        NOT_SKIPPED,
        "show percent 1 19 2024-11-01",
        "receipt 0 2 3\nreceipt 2 1 4\n",
        "percent 1 19 leaking 0 monitored 0 not good not skipped\n",
    ),
    (
        LATE_REPAIR,
        "show report 1 8 2024-03-31",
        "receipt 2 1 3\n",
        "report CRUDE unit 1 half 8 as of 2024-03-31\n2023-10 valves 0 0 pumps 0 0 compressors 0 0\n2023-11 valves 0 0 pumps 0 0 compressors 0 0\n2023-12 valves 0 0 pumps 0 0 compressors 0 0\n2024-01 valves 0 0 pumps 0 0 compressors 0 0\n2024-02 valves 1 0 pumps 0 0 compressors 0 0\n2024-03 valves 0 1 pumps 0 0 compressors 0 0\nend 6\n",
    ),
];

#[test]
fn duties_percents_and_reports_are_those_of_the_rule(rt: HostRuntime) -> Result<(), Fail> {
    for view in &VIEWS {
        shows(rt.alloc(), view)?;
    }
    Ok(())
}

#[test]
fn a_batch_of_every_kind_is_kept(rt: HostRuntime) -> Result<(), Fail> {
    let disk = docked(rt.alloc(), EVERY_KIND, "receipt 0 2 3\n")?;
    is(
        disk.bytes().len() == 17 + 5 + 163 + 5 + 32 + 5 + EVERY_KIND.len(),
        "the journal's length",
    )
}

const DENIED: [(&[u8], &str); 4] = [
    (GROUND_OF_PUMPS, "denied 1 10 60.482-9a(d)\n"),
    (NO_SIGNER, "denied 1 12 60.486a(c)(6)\n"),
    (NOTIFIED_LATE, "denied 1 14 60.487a(d)\n"),
    (NO_QUARTER, "denied 1 20 P5\n"),
];

#[test]
fn a_denied_batch_is_told_its_rule(rt: HostRuntime) -> Result<(), Fail> {
    for (input, said) in DENIED {
        docked(rt.alloc(), input, said)?;
    }
    Ok(())
}
